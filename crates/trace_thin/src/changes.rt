// The samples of a capture that change a level, counted and written.
ghost use Rattle.std.specs.Prelude.{ℕ, ◌+◌, ◌≤◌, ◌≡◌, List, length};
ghost use Rattle.std.proofs.lemmas.List.Edits.{sets};
ghost use Rattle.laws.specs.Buffer.{filled};
ghost use Rattle.trace.specs.Samples.{samples, stamps_of, levels_of};
ghost use Rattle.trace.specs.Changes.{kept, changes_from};

// No sample has it: a level before the first.
const NO_LEVEL: u8 = 4;

// A sample stored at a count where its level differs from the last one; the next count.
fn put(
    stamps: &mut [u32],
    levels: &mut [u8],
    count: usize,
    last: u8,
    stamp: u32,
    level: u8,
) -> usize
    requires { (count + length (kept last (stamp, level)) ≤ length stamps.old)
        × (count + length (kept last (stamp, level)) ≤ length levels.old) }
    ensures next { result ≡ count + length (kept last (stamp, level)) }
    ensures stamps_stored { stamps.new
        ≡ sets stamps.old count (stamps_of (kept last (stamp, level))) }
    ensures levels_stored { levels.new
        ≡ sets levels.old count (levels_of (kept last (stamp, level))) }
{
    if level == last {
        return count;
    }
    stamps[count] = stamp;
    levels[count] = level;
    count + 1
}

// How many samples differ in level from the one before, the first from a level that no sample has.
pub(crate) fn count(levels: &[u8]) -> usize
    ensures { (stamps : List ℕ) → length stamps ≡ length levels.now
        → result ≡ length (changes_from 4 (samples stamps levels.now)) }
{
    let mut last = NO_LEVEL;
    let mut found: usize = 0;
    for level in levels {
        found += (*level != last) as usize;
        last = *level;
    }
    found
}

// Those samples, into slices with room for them.
pub(crate) fn write(stamps: &[u32], levels: &[u8], thin_stamps: &mut [u32], thin_levels: &mut [u8])
    requires { (length stamps.now ≡ length levels.now)
        × (length (changes_from 4 (samples stamps.now levels.now)) ≤ length thin_stamps.old)
        × (length (changes_from 4 (samples stamps.now levels.now)) ≤ length thin_levels.old) }
    ensures stamps_stored { thin_stamps.new
        ≡ filled (stamps_of (changes_from 4 (samples stamps.now levels.now)))
        thin_stamps.old }
    ensures levels_stored { thin_levels.new
        ≡ filled (levels_of (changes_from 4 (samples stamps.now levels.now)))
        thin_levels.old }
{
    let mut last = NO_LEVEL;
    let mut found: usize = 0;
    for (stamp, level) in stamps.iter().zip(levels) {
        found = put(thin_stamps, thin_levels, found, last, *stamp, *level);
        last = *level;
    }
}
