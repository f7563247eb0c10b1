// How many elements of a slice to lend: n, or all where there are fewer.
ghost use Rattle.std.specs.Prelude.{min, ◌≡◌, length};
ghost use Rattle.rig_lines.specs.Parts.{Lent};

pub fn lent<T>(n: usize, slice: &[T]) -> usize
    ensures prefix_len { Lent result slice.now }
    ensures value { result ≡ min n (length slice.now) }
{
    n.min(slice.len())
}

// The same of bytes.
pub fn bytes(n: usize, slice: &[u8]) -> usize
    ensures prefix_len { Lent result slice.now }
    ensures value { result ≡ min n (length slice.now) }
{
    lent(n, slice)
}
