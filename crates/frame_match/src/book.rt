// The rehearsal as it is kept: a row of eight numbers for each load, and one for each of its boards after it; the
// events of all rows in one list.
ghost use Rattle.std.specs.Prelude.{◌+◌, ◌*◌, ◌≡◌, ltb, length};
ghost use Rattle.frame_match.specs.Book.{number_at, kept, put, is_load, is_rehearsed, waits, is_a, is_of, is_sought};

use super::{FIELDS, FROM, KIND, LOAD, MET, STATE, TO, WAITS};
use crate::frames::span;

// No number that is kept is above it.
const LARGEST: usize = 4294967295;

// The book has this number of a row.
fn is_kept(book: &[u32], row: usize, field: usize) -> bool
    ensures { result ≡ ltb (row * 8 + field) (length book.now) }
{
    if row > book.len() / FIELDS {
        return false;
    }
    if field >= book.len() {
        return false;
    }
    row * FIELDS + field < book.len()
}

// A number of a row; 0 where the book has none.
pub fn get(book: &[u32], row: usize, field: usize) -> usize
    ensures { result ≡ number_at book.now row field }
{
    if is_kept(book, row, field) {
        return book[row * FIELDS + field] as usize;
    }
    0
}

// A number as it is kept.
fn narrow(number: usize) -> u32
    ensures { result ≡ kept number }
{
    if number > LARGEST {
        return 0;
    }
    number as u32
}

// Writes a number of a row, where the book has one.
pub fn set(book: &mut [u32], row: usize, field: usize, value: usize)
    ensures { book.new ≡ put row field value book.old }
{
    if is_kept(book, row, field) {
        book[row * FIELDS + field] = narrow(value);
    }
}

pub fn is_load(book: &[u32], row: usize) -> bool
    ensures { result ≡ is_load book.now row }
{
    get(book, row, KIND) == LOAD
}

// A load has a rehearsed frame: it is neither refused nor in error, and has events.
pub fn is_rehearsed(book: &[u32], row: usize) -> bool
    ensures { result ≡ is_rehearsed book.now row }
{
    is_load(book, row)
        & (get(book, row, STATE) <= MET)
        & (get(book, row, FROM) < get(book, row, TO))
}

// A board waits to send again.
fn is_waiting(book: &[u32], row: usize) -> bool
    ensures { result ≡ waits book.now row }
{
    !is_load(book, row) & (get(book, row, STATE) == WAITS)
}

// What a row is looked for as.
#[derive(Clone, Copy)]
pub(crate) enum Sought {
    Load,
    Board,
    Rehearsed,
    Waiting,
}

#[inline(always)]
pub(crate) fn is_a(book: &[u32], row: usize, sought: Sought) -> bool
    ensures { result ≡ is_a sought book.now row }
{
    match sought {
        Sought::Load => is_load(book, row),
        Sought::Board => !is_load(book, row),
        Sought::Rehearsed => is_rehearsed(book, row),
        Sought::Waiting => is_waiting(book, row),
    }
}

// The frame is that of a row: the message of a board, or the frame that was rehearsed.
pub fn is_of(book: &[u32], events: &[u16], row: usize, frame: &[u16]) -> bool
    ensures { result ≡ is_of book.now events.now frame.now row }
{
    span(events, get(book, row, FROM), get(book, row, TO)) == frame
}

// The same of a row that is looked for.
#[inline(always)]
pub(crate) fn is_sought(
    book: &[u32],
    events: &[u16],
    frame: &[u16],
    row: usize,
    sought: Sought,
) -> bool
    ensures { result ≡ is_sought sought book.now events.now frame.now row }
{
    if is_a(book, row, sought) {
        return is_of(book, events, row, frame);
    }
    false
}
