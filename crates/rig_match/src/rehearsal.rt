// The lines of the rehearsal, as rig clash --wave prints them.
use crate::book::{EVENT_ROOM, NAME_ROOM, ROW_ROOM};
use crate::reading::{Reading, Verdict};
use crate::words;
use frame_match::{
    CUT, FROM, IN, KIND, LOAD, LOST, NAME, NAME_END, NUMBER, STATE, TO, WON, get, set,
};
use rig_lines::numbers::{is_number, value};
use text::{after_word, first_word, put_bytes};

// No larger number of a board is kept.
const LARGEST: u64 = 4294967295;

// A blank stands before the first word.
pub(crate) fn is_inner(line: &[u8]) -> bool {
    matches!(line, [b' ' | b'\t' | b'\r', ..])
}

// The row of a load or of a board, with its name and its events up to an end.
fn with_row(
    so_far: Reading,
    book: &mut [u32; ROW_ROOM],
    names: &mut [u8; NAME_ROOM],
    kind: usize,
    number: usize,
    name: &[u8],
    end: usize,
) -> Reading {
    let mut reading = so_far;
    let row = reading.rows;
    let name_end = put_bytes(names, reading.names, name);
    set(book, row, KIND, kind);
    set(book, row, FROM, reading.events);
    set(book, row, TO, end);
    set(book, row, NAME, reading.names);
    set(book, row, NAME_END, name_end);
    set(book, row, NUMBER, number);
    reading.rows = row.saturating_add(1);
    reading.events = end;
    reading.names = name_end;
    reading
}

// The message of a board stands after its name, which no byte is, where it has one.
fn message_in(words: &[u8]) -> &[u8] {
    if words::is_byte(first_word(words)) {
        return words;
    }
    after_word(words)
}

// The kind of a board by its first word; one that WON may be cut.
fn kind_of(word: &[u8], message: &[u8]) -> usize {
    match word {
        b"WON" => match first_word(words::after_message(message)) {
            b"CUT" => CUT,
            _ => WON,
        },
        b"in" => IN,
        _ => LOST,
    }
}

// A board's number, its name, and the message. The waveform has lines that begin like it, with no number.
fn with_board(
    reading: Reading,
    book: &mut [u32; ROW_ROOM],
    events: &mut [u16; EVENT_ROOM],
    names: &mut [u8; NAME_ROOM],
    word: &[u8],
    rest: &[u8],
) -> Reading {
    let number = text::decimal(first_word(rest));
    if !is_number(number) {
        return reading;
    }
    let words = after_word(rest);
    let message = message_in(words);
    let name = first_word(words::front(words, message.len()));
    let end = words::put_events(events, reading.events, message, false);
    let n = value(number).min(LARGEST) as usize;
    with_row(reading, book, names, kind_of(word, message), n, name, end)
}

// `carried`: the frame of the load.
fn with_frame(
    so_far: Reading,
    book: &mut [u32; ROW_ROOM],
    events: &mut [u16; EVENT_ROOM],
    rest: &[u8],
) -> Reading {
    let mut reading = so_far;
    let end = words::put_events(events, reading.events, rest, true);
    set(book, reading.load, FROM, reading.events);
    set(book, reading.load, TO, end);
    reading.events = end;
    reading
}

// The load is not rehearsed: in error, or refused.
fn without_frame(reading: Reading, book: &mut [u32; ROW_ROOM], state: usize) -> Reading {
    if state > get(book, reading.load, STATE) {
        set(book, reading.load, STATE, state);
    }
    reading
}

// A line of a load, by its first word: a board, the frame, or why it has none.
fn with_inner(
    reading: Reading,
    book: &mut [u32; ROW_ROOM],
    events: &mut [u16; EVENT_ROOM],
    names: &mut [u8; NAME_ROOM],
    line: &[u8],
) -> Reading {
    let word = first_word(line);
    let rest = after_word(line);
    match word {
        b"WON" | b"in" | b"lost" => with_board(reading, book, events, names, word, rest),
        b"carried" => with_frame(reading, book, events, rest),
        b"ERROR:" => without_frame(reading, book, frame_match::IN_ERROR),
        b"refused" => without_frame(reading, book, frame_match::REFUSED),
        _ => reading,
    }
}

// The number of a refusal.
fn number_in(word: &[u8]) -> u64 {
    let number = text::decimal(words::before_colon(word));
    if is_number(number) {
        return value(number);
    }
    0
}

// What the last line of the rehearsal says, by its first two words.
fn verdict_of(word: &[u8], second: &[u8]) -> Option<Verdict> {
    match word {
        b"ok" => Some(Verdict::Ok),
        b"look" => Some(Verdict::Look),
        b"refused" => Some(Verdict::Refused(number_in(second))),
        b"error" => Some(Verdict::Error),
        _ => None,
    }
}

// A line of a load, where there is one, or `load NAME TITLE`, or another, which may be the last.
pub(crate) fn with_line(
    so_far: Reading,
    book: &mut [u32; ROW_ROOM],
    events: &mut [u16; EVENT_ROOM],
    names: &mut [u8; NAME_ROOM],
    line: &[u8],
) -> Reading {
    let mut reading = so_far;
    if is_inner(line) {
        if reading.rows == 0 {
            return reading;
        }
        return with_inner(reading, book, events, names, line);
    }
    let word = first_word(after_word(line));
    if matches!(first_word(line), b"load") {
        reading.load = reading.rows;
        return with_row(reading, book, names, LOAD, 0, word, reading.events);
    }
    reading.verdict = verdict_of(first_word(line), word);
    reading
}
