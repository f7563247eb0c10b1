// The lines of the capture, as rig decode prints them.
use crate::reading::{Reading, Wrong};
use crate::words::{before_colon, front};
use rig_lines::numbers::value;
use rig_lines::store;
use text::{after_word, first_word};
use trace::{MAX_SAMPLES, MAX_STAMP};
use trace_text::Said;

// As many events as rig decode lists.
pub(crate) const EVENTS: usize = MAX_SAMPLES;

// Added to the stamp of an event that is doubtful.
pub(crate) const DOUBTFUL: u64 = MAX_STAMP + 1;

// A number that no event has.
const NO_EVENT: u16 = 65535;

// The number before a colon; a larger one than any stamp where there is none.
fn stamp_in(word: &[u8]) -> u64 {
    let number = before_colon(word);
    if number.len() == word.len() {
        return u64::MAX;
    }
    value(text::decimal(number))
}

// `doubtful`, and no word after it.
fn is_doubt(words: &[u8]) -> bool {
    matches!(first_word(words), b"doubtful") & first_word(after_word(words)).is_empty()
}

// The words of an event, at most three, without `doubtful` after them.
fn certain(words: &[u8]) -> &[u8] {
    let mut rest = after_word(words);
    for _ in 0..3 {
        if is_doubt(rest) {
            return front(words, rest.len());
        }
        rest = after_word(rest);
    }
    words
}

fn event_in(words: &[u8]) -> u16 {
    match trace_text::parse(words) {
        Said::Event(event) => event,
        _ => NO_EVENT,
    }
}

// A stamp, above all others where its event is doubtful.
fn marked(stamp: u64, doubtful: bool) -> u64 {
    let least = stamp.min(MAX_STAMP);
    if doubtful {
        return least + DOUBTFUL;
    }
    least
}

// A line with a stamp and an event.
fn with_event(
    so_far: Reading,
    line: &[u8],
    seen: &mut [u16; EVENTS],
    stamps: &mut [u64; EVENTS],
) -> Reading {
    let mut reading = so_far;
    let words = after_word(line);
    let stamp = stamp_in(first_word(line));
    let event = event_in(certain(words));
    if (stamp > MAX_STAMP) | (event == NO_EVENT) {
        return reading.failed(Wrong::Strange);
    }
    if reading.seen >= EVENTS {
        return reading.failed(Wrong::Crowded);
    }
    let doubtful = certain(words).len() < words.len();
    store::keep(stamps, reading.seen, marked(stamp, doubtful));
    reading.seen = store::keep(seen, reading.seen, event);
    reading
}

// A line of the capture, by its first word.
pub(crate) fn with_line(
    so_far: Reading,
    line: &[u8],
    seen: &mut [u16; EVENTS],
    stamps: &mut [u64; EVENTS],
) -> Reading {
    let mut reading = so_far;
    match first_word(line) {
        b"" | b"start" | b"gap" => reading,
        b"ok" | b"look" => {
            reading.more = false;
            reading
        }
        _ => with_event(reading, line, seen, stamps),
    }
}
