// The lists of a catalogue: boards that rise, lengths that sum to a block, a board sought.
ghost use Rattle.std.specs.Prelude.{◌≡◌, eqb, position};
ghost use Rattle.catalogue.specs.Catalogue.{rises as rises_of, total, is};

// Each board is above the one before.
pub(crate) fn rises(boards: &[u32]) -> bool
    ensures { result ≡ rises_of boards.now }
{
    for i in 1..boards.len() {
        if boards[i] <= boards[i - 1] {
            return false;
        }
    }
    true
}

// The lengths sum to a size. Each is taken off what is left of the size, so that no sum wraps.
pub(crate) fn sum_to(lengths: &[u32], size: usize) -> bool
    ensures { result ≡ eqb (total lengths.now) size }
{
    let mut left = size;
    for length in lengths {
        let count = *length as usize;
        if left < count {
            return false;
        }
        left -= count;
    }
    left == 0
}

// The index of a board in its list.
pub(crate) fn index_of(board: u32, boards: &[u32]) -> Option<usize>
    ensures { result ≡ position (is board) boards.now }
{
    boards.iter().position(|other| *other == board)
}
