// The load that a frame is about, and its boards, after the frame.
ghost use Rattle.std.specs.Prelude.{◌≡◌, cond};
ghost use Rattle.frame_match.specs.Rows.{between};
ghost use Rattle.frame_match.specs.Settled.{state_after, marked, stands, board_after, boards_after, settled};

use super::{DONE, Found, KIND, MET, SINCE, STATE, WAITS, WON};
use crate::book::{get, is_of, set};
use crate::rows::boards_end;

fn done_if(done: bool, state: usize) -> usize
    ensures { result ≡ cond done 2 state }
{
    if done { DONE } else { state }
}

// How a board stands after the frame, by its kind, how it stood, and whether the frame is its message.
fn state_after(found: Found, kind: usize, state: usize, sends: bool) -> usize
    ensures { result ≡ state_after found kind state sends }
{
    match found {
        Found::Waiting(_) => done_if(sends & (state == WAITS), state),
        Found::Rehearsed(_) => done_if(kind == WON, WAITS),
        Found::Different => done_if(sends, WAITS),
        Found::Other => state,
    }
}

// Where a board begins to wait, since which frame.
fn mark(book: &mut [u32], row: usize, state: usize, number: usize)
    ensures { book.new ≡ marked row state number book.old }
{
    let before = get(book, row, STATE);
    if (state == WAITS) & (before != WAITS) {
        set(book, row, SINCE, number);
    }
}

// How a board stands.
fn stand(book: &mut [u32], row: usize, state: usize, number: usize)
    ensures { book.new ≡ stands row state number book.old }
{
    mark(book, row, state, number);
    set(book, row, STATE, state);
}

// A board after the frame.
fn settle_board(
    book: &mut [u32],
    events: &[u16],
    frame: &[u16],
    row: usize,
    found: Found,
    number: usize,
)
    ensures { book.new ≡ board_after events.now frame.now found number
        book.old row }
{
    let kind = get(book, row, KIND);
    let before = get(book, row, STATE);
    let sends = is_of(book, events, row, frame);
    stand(book, row, state_after(found, kind, before, sends), number);
}

// The boards in rows.
fn settle_boards(
    book: &mut [u32],
    events: &[u16],
    frame: &[u16],
    from: usize,
    end: usize,
    found: Found,
    number: usize,
)
    ensures { book.new ≡ boards_after events.now frame.now found number
        book.old (between from end) }
{
    for row in from..end {
        settle_board(book, events, frame, row, found, number);
    }
}

// The load that a frame is about, and its boards; number is the frame's. Past the rows nothing is written.
pub fn settle(
    book: &mut [u32],
    rows: usize,
    events: &[u16],
    frame: &[u16],
    load: usize,
    found: Found,
    number: usize,
)
    ensures { book.new ≡ settled book.old rows events.now frame.now
        load found number }
{
    if load < rows {
        let end = boards_end(book, rows, load);
        set(book, load, STATE, MET);
        settle_boards(book, events, frame, load + 1, end, found, number);
    }
}
