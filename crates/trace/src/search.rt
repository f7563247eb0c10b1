// The first bad level and the first bad stamp of a trace.
ghost use Rattle.std.specs.Prelude.{◌≡◌, position};
ghost use Rattle.trace.specs.Trace.{bad_level, bad_stamp, place_in};

// The place of the first level above 3, if there is one.
pub fn bad_level(levels: &[u8]) -> Option<usize>
    ensures { result ≡ position bad_level levels.now }
{
    levels.iter().position(|level| *level > levels::MAX_LEVEL)
}

// The place of the first stamp not above the one before, if there is one.
pub fn bad_stamp(stamps: &[u32]) -> Option<usize>
    ensures { result ≡ place_in stamps.now (bad_stamp stamps.now) }
{
    for i in 1..stamps.len() {
        if stamps[i] <= stamps[i - 1] {
            return Some(i);
        }
    }
    None
}
