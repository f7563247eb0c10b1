// The line of a frame.
use crate::book::Lists;
use crate::capture::DOUBTFUL;
use crate::{differences, phrase};
use frame_match::{CUT, Found, IN, KIND, SINCE, WON, boards_end, get, load_about, sender, span};
use rig_lines::console::PAGE;
use rig_lines::store::line_at;
use trace::START;

// What is said of a frame: words with marks, and the numbers that these stand for.
#[derive(Clone, Copy)]
pub(crate) struct Said {
    words: &'static [u8],
    numbers: [u64; 6],
}

impl Said {
    pub(crate) fn new(words: &'static [u8], numbers: [u64; 6]) -> Said {
        Said { words, numbers }
    }
}

// An event from a place on up to another is doubtful.
fn is_doubtful(stamps: &[u64], from: usize, end: usize) -> bool {
    (from..end).any(|i| line_at(stamps, i) >= DOUBTFUL)
}

// How many bytes a frame has.
fn bytes_in(frame: &[u16]) -> u64 {
    frame.iter().filter(|event| **event < START).count() as u64
}

// The rehearsed frame of a load, whose boards end at a row: won, cut and won, or undecided.
fn rehearsed(book: &[u32], frame: &[u16], load: usize, end: usize) -> Said {
    let from = load.saturating_add(1);
    let numbers = [load as u64, bytes_in(frame), from as u64, end as u64, 0, 0];
    if (from..end).any(|row| get(book, row, KIND) == IN) {
        return Said::new(b"$ as rehearsed, # byte~, undecided between ?", numbers);
    }
    let mut kinds = (from..end).map(|row| get(book, row, KIND));
    match kinds.find(|kind| matches!(*kind, CUT | WON)) {
        Some(CUT) => Said::new(b"$ as rehearsed, # byte~, cut, won by +", numbers),
        _ => Said::new(b"$ as rehearsed, # byte~, won by +", numbers),
    }
}

// A frame that is not rehearsed, and whose message it is, where it is a board's.
fn other(book: &[u32], lists: Lists, from: usize, end: usize) -> Said {
    let rows = lists.rows;
    let row = sender(book, lists.events, span(lists.seen, from, end), 0, rows);
    let words = b"not rehearsed: =[; the message of $ in $]";
    if row >= rows {
        return Said::new(words, [from as u64, end as u64, 0, 0, 0, 0]);
    }
    let load = load_about(book, rows, Found::Waiting(row), rows);
    Said::new(
        words,
        [from as u64, end as u64, row as u64, load as u64, 0, 0],
    )
}

// What a frame was found to be, and which load it is about.
fn judged(book: &[u32], lists: Lists, from: usize, to: usize, load: usize, found: Found) -> Said {
    if load >= lists.rows {
        return other(book, lists, from, to);
    }
    let frame = span(lists.seen, from, to);
    let end = boards_end(book, lists.rows, load);
    match found {
        Found::Waiting(row) => {
            let since = get(book, row, SINCE) as u64;
            let numbers = [load as u64, row as u64, end as u64, since, 0, 0];
            Said::new(b"$, message of *, waiting since frame #", numbers)
        }
        Found::Rehearsed(_) => rehearsed(book, frame, load, end),
        _ => differences::said(book, lists.events, frame, load, end),
    }
}

// The line of the frame that begins at a place and ends at another.
pub(crate) fn put(
    page: &mut [u8; PAGE],
    at: usize,
    book: &[u32],
    lists: Lists,
    from: usize,
    end: usize,
    number: u64,
    load: usize,
    found: Found,
) -> usize {
    let front = [
        number,
        line_at(lists.stamps, from) % DOUBTFUL,
        line_at(lists.stamps, end.saturating_sub(1)) % DOUBTFUL,
    ];
    let words = b"frame #, # to #: ";
    let next = phrase::put(page, at, book, lists, words, &front);
    let said = judged(book, lists, from, end, load, found);
    let last = phrase::put(page, next, book, lists, said.words, &said.numbers);
    let doubt = [is_doubtful(lists.stamps, from, end) as u64];
    let rest = b"[; doubtful]\n";
    phrase::put(page, last, book, lists, rest, &doubt)
}
