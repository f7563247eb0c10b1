// What the marks of a phrase stand for: names, events, the boards of a load, the bytes of a frame.
use crate::book::{Lists, text};
use crate::phrase::{UNDECIDED, WINNERS};
use frame_match::{
    CUT, FROM, IN, KIND, NAME, NAME_END, NUMBER, STATE, TO, WAITS, WON, get, is_load, is_of, span,
};
use rig_lines::console::{PAGE, begin, put_form};
use rig_lines::lists::line_of;
use text::put_bytes;
use trace::{NACK, PARTIAL, REPEATED_START, START};

// Stands for the event of a list that has ended.
pub(crate) const NO_EVENT: u16 = PARTIAL + 1;

// A load by its name, a board by its name or, where it has none, by its number.
pub(crate) fn put_name(
    page: &mut [u8; PAGE],
    at: usize,
    book: &[u32],
    names: &[u8],
    row: usize,
) -> usize {
    let from = begin(page, at);
    let name = text(names, get(book, row, NAME), get(book, row, NAME_END));
    if (name.len() == 0) & !is_load(book, row) {
        return put_form(page, from, b"board #", &[get(book, row, NUMBER) as u64]);
    }
    put_bytes(page, from, name)
}

// An event that is held against another: a byte, or one of those from START on.
pub(crate) fn put_event(page: &mut [u8; PAGE], at: usize, event: u64) -> usize {
    if event < START as u64 {
        return put_form(page, at, b"%", &[event]);
    }
    let words = b"START\nrepeated START\nSTOP\ncut byte\nnothing";
    put_bytes(page, at, line_of(words, event as usize - START as usize))
}

pub(crate) fn acknowledge(event: u64) -> &'static [u8] {
    if event < NACK as u64 { b"ACK" } else { b"NACK" }
}

// A blank is the last byte before a position.
fn after_blank(page: &[u8], at: usize) -> bool {
    let last = at.checked_sub(1).and_then(|place| page.get(place));
    matches!(last, Some(b' '))
}

// A comma and a blank, unless a blank stands before.
pub(crate) fn put_comma(page: &mut [u8; PAGE], at: usize) -> usize {
    if after_blank(page, at) {
        return at;
    }
    put_bytes(page, at, b", ")
}

// A board is of those that a mark names: it won, is undecided, or waits with the message of the first.
fn is_among(book: &[u32], events: &[u16], mark: u8, first: usize, row: usize) -> bool {
    let kind = get(book, row, KIND);
    match mark {
        WINNERS => (kind == WON) | (kind == CUT),
        UNDECIDED => kind == IN,
        _ => {
            let message = span(events, get(book, first, FROM), get(book, first, TO));
            (get(book, row, STATE) == WAITS) & is_of(book, events, row, message)
        }
    }
}

fn put_next_name(
    page: &mut [u8; PAGE],
    at: usize,
    book: &[u32],
    names: &[u8],
    row: usize,
) -> usize {
    let next = put_comma(page, at);
    put_name(page, next, book, names, row)
}

// The boards in rows that a mark names.
pub(crate) fn put_boards(
    page: &mut [u8; PAGE],
    begun: usize,
    book: &[u32],
    lists: Lists,
    mark: u8,
    from: usize,
    end: usize,
) -> usize {
    let mut at = begun;
    for row in from..end {
        if is_among(book, lists.events, mark, from, row) {
            at = put_next_name(page, at, book, lists.names, row);
        }
    }
    at
}

fn is_shown(event: u16) -> bool {
    (event < START) | (event == PARTIAL)
}

// What stands before the next byte: nothing before the first, then a comma, or a restart.
fn between(before: &'static [u8], event: u16) -> &'static [u8] {
    if is_shown(event) {
        return b", ";
    }
    if (event == REPEATED_START) & !before.is_empty() {
        return b" / ";
    }
    before
}

// A byte with its acknowledge, or a cut byte, after what stands before it.
fn put_byte(page: &mut [u8; PAGE], at: usize, event: u16, before: &[u8]) -> usize {
    if !is_shown(event) {
        return at;
    }
    let from = begin(page, at);
    let next = put_bytes(page, from, before);
    if event == PARTIAL {
        return put_bytes(page, next, b"cut byte");
    }
    let byte = put_form(page, next, b"% ", &[event as u64]);
    put_bytes(page, byte, acknowledge(event as u64))
}

// The bytes of a frame, or that it has none.
pub(crate) fn put_frame(
    page: &mut [u8; PAGE],
    begun: usize,
    seen: &[u16],
    from: usize,
    end: usize,
) -> usize {
    let frame = span(seen, from, end);
    let mut at = begun;
    let mut before: &'static [u8] = b"";
    for event in frame {
        at = put_byte(page, at, *event, before);
        before = between(before, *event);
    }
    if before.is_empty() {
        return put_bytes(page, at, b"no byte");
    }
    at
}
