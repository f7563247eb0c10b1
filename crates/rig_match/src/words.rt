// Messages and frames in words, as events.
use crate::book::EVENT_ROOM;
use rig_lines::numbers::{hex_byte, value};
use rig_lines::store;
use text::{after_word, first_word};
use trace::{NACK, REPEATED_START, START, STOP};

// Words without so many bytes at their end.
pub(crate) fn front(words: &[u8], rest: usize) -> &[u8] {
    if rest > words.len() {
        return words;
    }
    &words[..words.len() - rest]
}

// A word without a colon at its end.
pub(crate) fn before_colon(word: &[u8]) -> &[u8] {
    word.strip_suffix(b":").unwrap_or(word)
}

// A byte: two hexadecimal digits.
pub(crate) fn is_byte(word: &[u8]) -> bool {
    (word.len() == 2) & (value(hex_byte(word)) < 256)
}

// Between two parts of a message.
fn is_restart(word: &[u8]) -> bool {
    matches!(word, b"/")
}

// An event stands first: a byte or a restart. The count of bytes in `2 of 4 bytes carried`, after a message, is none.
fn is_event(words: &[u8], carried: bool) -> bool {
    let word = first_word(words);
    let counted = matches!(first_word(after_word(words)), b"of") & !carried;
    (is_byte(word) | is_restart(word)) & !counted
}

fn is_unacknowledged(word: &[u8]) -> bool {
    matches!(word, b"NACK" | b"NACK,")
}

// The first event; a byte that was carried has its acknowledge after it.
fn event_in(words: &[u8], carried: bool) -> u16 {
    if is_restart(first_word(words)) {
        return REPEATED_START;
    }
    let byte = (value(hex_byte(first_word(words))) % 256) as u16;
    if carried & is_unacknowledged(first_word(after_word(words))) {
        return byte + NACK;
    }
    byte
}

// What follows the first event.
fn after_event(words: &[u8], carried: bool) -> &[u8] {
    if carried & !is_restart(first_word(words)) {
        return after_word(after_word(words));
    }
    after_word(words)
}

// What follows a message.
pub(crate) fn after_message(words: &[u8]) -> &[u8] {
    let mut rest = words;
    for _ in 0..words.len() {
        if !is_event(rest, false) {
            return rest;
        }
        rest = after_word(rest);
    }
    rest
}

// A message, all of it acknowledged, or a frame that was carried, with its acknowledges; from START to STOP.
pub(crate) fn put_events(
    events: &mut [u16; EVENT_ROOM],
    at: usize,
    words: &[u8],
    carried: bool,
) -> usize {
    let mut next = store::keep(events, at, START);
    let mut rest = words;
    for _ in 0..words.len() {
        if !is_event(rest, carried) {
            return store::keep(events, next, STOP);
        }
        next = store::keep(events, next, event_in(rest, carried));
        rest = after_event(rest, carried);
    }
    store::keep(events, next, STOP)
}
