// Which load a frame is held against: the first of six rules that applies.
ghost use Rattle.std.specs.Prelude.{ℕ, ◌<◌, ◌≡◌, List, take, drop};
ghost use Rattle.laws.specs.Search.{any};
ghost use Rattle.frame_match.specs.Book.{is_of};
ghost use Rattle.frame_match.specs.Frames.{cut};
ghost use Rattle.frame_match.specs.Rules as matching;

use super::Found;
use crate::book::{Sought, is_of, is_sought};
use crate::frames::{end_of, frame_at};
use crate::rows::{boards_end, first_of, load_of, loads_between, next_load, sender};

// Of so many frames from a place on one is that of a row.
fn comes_within(
    book: &[u32],
    events: &[u16],
    row: usize,
    seen: &[u16],
    from: usize,
    count: usize,
) -> bool
    ensures { result ≡ any (λ (frame : List ℕ). is_of book.now events.now frame row)
        (take count (cut (drop from seen.now))) }
{
    let mut at = from;
    for _ in 0..count {
        if at >= seen.len() {
            return false;
        }
        if is_of(book, events, row, frame_at(seen, at)) {
            return true;
        }
        at = end_of(seen, at);
    }
    false
}

// Of the frames from a place on the first that is rehearsed, from a load on, is that load's.
fn comes(book: &[u32], rows: usize, events: &[u16], seen: &[u16], from: usize, load: usize) -> bool
    ensures { result ≡ matching.comes book.now rows events.now load
        (cut (drop from seen.now)) }
{
    let mut at = from;
    while at < seen.len() {
        let row = first_of(
            book,
            events,
            frame_at(seen, at),
            load,
            rows,
            Sought::Rehearsed,
        );
        if row < rows {
            return row == load;
        }
        at = end_of(seen, at);
    }
    false
}

// Rules 4 to 6 where there is a next load: the frame comes before the next load's, or differs from it.
fn unlike(
    book: &[u32],
    rows: usize,
    events: &[u16],
    seen: &[u16],
    from: usize,
    next: usize,
) -> Found
    requires { next < rows }
    ensures { result ≡ matching.unlike book.now rows events.now
        (cut (drop from seen.now)) next }
{
    let end = boards_end(book, rows, next);
    if sender(book, events, frame_at(seen, from), next + 1, end) < end {
        return Found::Different;
    }
    if comes(book, rows, events, seen, end_of(seen, from), next) {
        return Found::Other;
    }
    Found::Different
}

// The next load's frame does not come as soon: there are as many frames as loads between it and the other.
fn is_passed(
    book: &[u32],
    rows: usize,
    events: &[u16],
    seen: &[u16],
    from: usize,
    next: usize,
    load: usize,
) -> bool
    requires { next < rows }
    ensures { result ≡ matching.is_passed book.now events.now
        (drop 1 (cut (drop from seen.now))) next load }
{
    let loads = loads_between(book, next + 1, load);
    !comes_within(book, events, next, seen, end_of(seen, from), loads)
}

// Rules 3 to 6 where there is a next load.
fn ahead(book: &[u32], rows: usize, events: &[u16], seen: &[u16], from: usize, next: usize) -> Found
    requires { next < rows }
    ensures { result ≡ matching.ahead book.now rows events.now
        (cut (drop from seen.now)) next }
{
    let frame = frame_at(seen, from);
    let load = first_of(book, events, frame, next + 1, rows, Sought::Rehearsed);
    if load >= rows {
        return unlike(book, rows, events, seen, from, next);
    }
    if is_passed(book, rows, events, seen, from, next, load) {
        return Found::Rehearsed(load);
    }
    unlike(book, rows, events, seen, from, next)
}

// What the frame that begins at a place is; next is the row of the next load, past the rows where there is none.
pub fn find(
    book: &[u32],
    rows: usize,
    events: &[u16],
    seen: &[u16],
    from: usize,
    next: usize,
) -> Found
    ensures { result ≡ matching.found book.now rows events.now
        (cut (drop from seen.now)) next }
{
    let frame = frame_at(seen, from);
    let row = first_of(book, events, frame, 0, rows, Sought::Waiting);
    if row < rows {
        return Found::Waiting(row);
    }
    if next >= rows {
        return Found::Other;
    }
    if is_sought(book, events, frame, next, Sought::Rehearsed) {
        return Found::Rehearsed(next);
    }
    ahead(book, rows, events, seen, from, next)
}

// The load that a frame is about; past the rows where it is about none.
pub fn load_about(book: &[u32], rows: usize, found: Found, next: usize) -> usize
    ensures { result ≡ matching.load_about book.now rows found next }
{
    match found {
        Found::Waiting(row) => load_of(book, row),
        Found::Rehearsed(load) => load,
        Found::Different => next,
        Found::Other => rows,
    }
}

// The first load after one that has a rehearsed frame.
fn next_from(book: &[u32], rows: usize, load: usize) -> usize
    ensures { result ≡ matching.load_after book.now rows load }
{
    if load >= rows {
        return rows;
    }
    next_load(book, rows, load + 1)
}

// The next load after a frame that is about a load.
pub fn next_after(book: &[u32], rows: usize, found: Found, load: usize, next: usize) -> usize
    ensures { result ≡ matching.next_after book.now rows found load next }
{
    match found {
        Found::Waiting(_) => next,
        Found::Rehearsed(_) => next_from(book, rows, load),
        Found::Different => next_from(book, rows, load),
        Found::Other => next,
    }
}
