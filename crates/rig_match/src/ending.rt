// What was not on the bus, and the last line.
use crate::book::Lists;
use crate::matching::Matching;
use crate::phrase;
use crate::reading::{Reading, Verdict};
use frame_match::{SINCE, STATE, WAITS, get, is_load, is_rehearsed};
use rig_lines::console::PAGE;
use text::put_byte;

// What is missing: loads and messages that were not on the bus, loads that were not rehearsed.
#[derive(Clone, Copy)]
struct Missing {
    // where the page goes on
    at: usize,
    // the load of the boards that follow
    load: usize,
    loads: u64,
    messages: u64,
    refused: u64,
    in_error: u64,
}

// What is missing of a row: the frame of a load, its rehearsal as it is in error or refused, or a message.
#[derive(Clone, Copy)]
enum Lack {
    Frame,
    InError,
    Refused,
    Message,
}

fn lack_of(book: &[u32], row: usize) -> Option<Lack> {
    let state = get(book, row, STATE);
    if !is_load(book, row) {
        return (state == WAITS).then_some(Lack::Message);
    }
    match state {
        frame_match::MET => None,
        frame_match::IN_ERROR => Some(Lack::InError),
        frame_match::REFUSED => Some(Lack::Refused),
        _ => is_rehearsed(book, row).then_some(Lack::Frame),
    }
}

impl Lack {
    fn words(self) -> &'static [u8] {
        match self {
            Lack::Frame => b"not on the bus: $",
            Lack::InError => b"no rehearsal: $, in error",
            Lack::Refused => b"no rehearsal: $, refused",
            Lack::Message => b"not on the bus: $, message of $, waiting since frame #",
        }
    }
}

impl Missing {
    // With one lack more.
    fn counted(mut self, lack: Lack) -> Missing {
        match lack {
            Lack::Frame => self.loads = self.loads.saturating_add(1),
            Lack::InError => self.in_error = self.in_error.saturating_add(1),
            Lack::Refused => self.refused = self.refused.saturating_add(1),
            Lack::Message => self.messages = self.messages.saturating_add(1),
        }
        self
    }
}

fn with_row(
    page: &mut [u8; PAGE],
    book: &[u32],
    lists: Lists,
    row: usize,
    so_far: Missing,
) -> Missing {
    let mut missing = so_far;
    if is_load(book, row) {
        missing.load = row;
    }
    let Some(lack) = lack_of(book, row) else {
        return missing;
    };
    let numbers = [
        missing.load as u64,
        row as u64,
        get(book, row, SINCE) as u64,
    ];
    let words = lack.words();
    let line = phrase::put(page, missing.at, book, lists, words, &numbers);
    missing.at = put_byte(page, line, b'\n');
    missing.counted(lack)
}

fn put_missing(page: &mut [u8; PAGE], at: usize, book: &[u32], lists: Lists) -> Missing {
    let mut missing = Missing {
        at,
        load: 0,
        loads: 0,
        messages: 0,
        refused: 0,
        in_error: 0,
    };
    for row in 0..lists.rows {
        missing = with_row(page, book, lists, row, missing);
    }
    missing
}

// The first word: that of the rehearsal where it was not read, else whether all is as it was rehearsed.
fn first_word(reading: Reading, done: Matching, absent: u64) -> &'static [u8] {
    let clean = (done.different == 0) & (done.other == 0) & (absent == 0) & (reading.gaps == 0);
    match reading.verdict {
        Some(Verdict::Refused(_)) => b"refused #: ",
        Some(Verdict::Error) => b"error ",
        _ if (done.frames > 0) & clean => b"ok ",
        _ => b"look ",
    }
}

// The number of the refusal of the rehearsal.
fn refusal_of(reading: Reading) -> u64 {
    match reading.verdict {
        Some(Verdict::Refused(number)) => number,
        _ => 0,
    }
}

// How many frames there were, and what they were found to be.
fn put_frames(
    page: &mut [u8; PAGE],
    at: usize,
    book: &[u32],
    lists: Lists,
    done: Matching,
) -> usize {
    let counts = [
        done.frames,
        done.frames,
        done.rehearsed,
        done.waited,
        done.different,
        done.other,
    ];
    let words = b"# frame~[_: ][&# as rehearsed][&# waited][&# different][&# not rehearsed]";
    phrase::put(page, at, book, lists, words, &counts)
}

// What was not on the bus, and the last line.
pub(crate) fn put(
    page: &mut [u8; PAGE],
    book: &[u32],
    lists: Lists,
    reading: Reading,
    done: Matching,
) -> usize {
    let missing = put_missing(page, done.at, book, lists);
    let absent = missing.loads | missing.messages;
    let both = (missing.loads > 0) & (missing.messages > 0);
    let others = reading.gaps | missing.refused | missing.in_error | reading.faults;
    let word = first_word(reading, done, absent);
    let start = [refusal_of(reading)];
    let begun = phrase::put(page, missing.at, book, lists, word, &start);
    let frames = put_frames(page, begun, book, lists, done);
    let doubts = [
        absent | others,
        missing.loads,
        both as u64,
        missing.messages,
        absent,
        reading.gaps,
        missing.refused,
        missing.in_error,
        reading.faults,
    ];
    let last = b"[_; ][# load~][_ and ][# message~][_ not on the bus]\
[&# long gap~][&# load~ refused][&# load~ in error][&# fault~ in the loads]\n";
    phrase::put(page, frames, book, lists, last, &doubts)
}
