// Rows of the book looked for, in their order.
ghost use Rattle.std.specs.Prelude.{ℕ, Bool, ◌≡◌};
ghost use Rattle.frame_match.specs.Book.{is_a, is_sought, is_rehearsed, is_message};
ghost use Rattle.frame_match.specs.Rows.{between, count, first_row, load_of, boards_end};

use crate::book::{Sought, is_a, is_load, is_rehearsed, is_sought};

// The first row from one on that passes a test; the end where none does. Inlined, or each row costs a call of the test.
#[inline(always)]
fn first_passing<F: Fn(usize) -> bool>(from: usize, end: usize, passes: F) -> usize
    requires { F.IsAlwaysCallable passes }
    ensures { (test : ℕ → Bool) → ((row : ℕ) (passed : Bool) → F.post passes row passed → passed ≡ test row)
        → result ≡ first_row test from end }
{
    for row in from..end {
        if passes(row) {
            return row;
        }
    }
    from.max(end)
}

// The first row from one on that is what is looked for; the end where none is.
pub(crate) fn first_row(book: &[u32], from: usize, end: usize, sought: Sought) -> usize
    ensures { result ≡ first_row (is_a sought book.now) from end }
{
    first_passing(from, end, |row| is_a(book, row, sought))
}

// The same where the frame is that of the row.
pub(crate) fn first_of(
    book: &[u32],
    events: &[u16],
    frame: &[u16],
    from: usize,
    end: usize,
    sought: Sought,
) -> usize
    ensures { result ≡ first_row (is_sought sought book.now events.now frame.now)
        from end }
{
    first_passing(from, end, |row| is_sought(book, events, frame, row, sought))
}

// The first load from a row on that has a rehearsed frame.
pub fn next_load(book: &[u32], rows: usize, from: usize) -> usize
    ensures { result ≡ first_row (is_rehearsed book.now) from rows }
{
    first_row(book, from, rows, Sought::Rehearsed)
}

// The first board whose message this is, of those in rows.
pub fn sender(book: &[u32], events: &[u16], frame: &[u16], from: usize, end: usize) -> usize
    ensures { result ≡ first_row (is_message book.now events.now frame.now)
        from end }
{
    first_of(book, events, frame, from, end, Sought::Board)
}

// Where the boards of a load end.
pub fn boards_end(book: &[u32], rows: usize, load: usize) -> usize
    ensures { result ≡ boards_end book.now rows load }
{
    if load >= rows {
        return rows;
    }
    first_row(book, load + 1, rows, Sought::Load)
}

// The load of a board: the last one up to its row.
pub(crate) fn load_of(book: &[u32], row: usize) -> usize
    ensures { result ≡ load_of book.now row }
{
    for load in (1..=row).rev() {
        if is_load(book, load) {
            return load;
        }
    }
    0
}

// How many loads have a rehearsed frame, of those in rows.
pub(crate) fn loads_between(book: &[u32], from: usize, end: usize) -> usize
    ensures { result ≡ count (is_rehearsed book.now) (between from end) }
{
    let mut loads: usize = 0;
    for row in from..end {
        loads += is_rehearsed(book, row) as usize;
    }
    loads
}
