// Values kept in a lent slice.
ghost use Rattle.std.specs.Prelude.{◌≡◌, get_or};
ghost use Rattle.rig_lines.specs.Store.{Kept};

// Keeps a value at a position, where there is room, and answers the next one.
pub fn keep<T: Copy>(list: &mut [T], at: usize, value: T) -> usize
    ensures { Kept list.old at value list.new result }
{
    if at < list.len() {
        list[at] = value;
        return at + 1;
    }
    at
}

// The number at a position, and 0 where there is none.
pub fn line_at(lines: &[u64], at: usize) -> u64
    ensures { result ≡ get_or lines.now at 0 }
{
    lines.get(at).copied().unwrap_or(0)
}
