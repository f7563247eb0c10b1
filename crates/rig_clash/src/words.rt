// The bytes, the parts and the acknowledges of a load's lines.
use crate::forms::Form;
use arbitration_rules::MAX_LENGTH;
use load_text::{acknowledge_in, byte_in, short_byte_in};
use text::{after_word, first_word, put_byte};

// What the words of a line are to be: bytes of two digits, of one or two, or acknowledges.
#[derive(Clone, Copy)]
pub(crate) enum Kind {
    Byte,
    Short,
    Ack,
}

fn read(kind: Kind, word: &[u8]) -> Option<u8> {
    match kind {
        Kind::Byte => byte_in(word),
        Kind::Short => short_byte_in(word),
        Kind::Ack => acknowledge_in(word),
    }
}

fn is_read(kind: Kind, word: &[u8]) -> bool {
    read(kind, word).is_some()
}

// A word after `/` is a byte, or is found to be none later.
fn goes_on(kind: Kind, next: &[u8]) -> bool {
    !matches!(kind, Kind::Ack) & (next.len() > 0) & !is_slash(next)
}

// The first of some words is of the kind; `/` has bytes on both sides.
fn suits(kind: Kind, words: &[u8], is_first: bool) -> bool {
    let word = first_word(words);
    if is_slash(word) {
        return !is_first & goes_on(kind, first_word(after_word(words)));
    }
    is_read(kind, word)
}

fn value(kind: Kind, word: &[u8]) -> u8 {
    read(kind, word).unwrap_or(0)
}

// `-` stands for no bytes, or for standard input.
pub(crate) fn is_dash(word: &[u8]) -> bool {
    matches!(word, b"-")
}

// `/` stands between two parts.
pub(crate) fn is_slash(word: &[u8]) -> bool {
    matches!(word, b"/")
}

// What is said of a word that is not of its kind: of `/` among bytes, where it may not stand.
pub(crate) fn form_of(other: &[u8], form: Form) -> Form {
    if is_slash(other) {
        return Form::Slash;
    }
    form
}

// The first word that is not of the kind, empty where all are.
pub(crate) fn first_other(kind: Kind, words: &[u8]) -> &[u8] {
    let mut rest = words;
    while first_word(rest).len() > 0 {
        if !suits(kind, rest, rest.len() == words.len()) {
            return first_word(rest);
        }
        rest = after_word(rest);
    }
    first_word(rest)
}

fn counted(count: u64, word: &[u8]) -> u64 {
    if is_slash(word) {
        return count;
    }
    count.saturating_add(1)
}

// How many values they have.
pub(crate) fn count(words: &[u8]) -> u64 {
    let mut n: u64 = 0;
    let mut rest = words;
    while first_word(rest).len() > 0 {
        n = counted(n, first_word(rest));
        rest = after_word(rest);
    }
    n
}

fn put_value(room: &mut [u8], at: usize, kind: Kind, word: &[u8]) -> usize {
    if is_slash(word) {
        return at;
    }
    put_byte(room, at, value(kind, word))
}

// Their values, as many as there is room for.
pub(crate) fn put_values(room: &mut [u8], kind: Kind, words: &[u8]) {
    let mut next: usize = 0;
    let mut rest = words;
    while first_word(rest).len() > 0 {
        next = put_value(room, next, kind, first_word(rest));
        rest = after_word(rest);
    }
}

// Where the part of a word begins: after `/` at the next byte.
fn begun(slash: bool, start: usize, next: usize) -> usize {
    if slash {
        return next;
    }
    start
}

// One byte more of the part that begins at a place, at the last where it begins past the room; answers where the next
// byte stands.
fn put_more(room: &mut [u8; MAX_LENGTH], slash: bool, start: usize, next: usize) -> usize {
    if slash {
        return next;
    }
    let at = start.min(MAX_LENGTH - 1);
    room[at] = room[at].saturating_add(1);
    next.min(MAX_LENGTH - 1) + 1
}

// The length of each of their parts, where it begins.
pub(crate) fn put_parts(room: &mut [u8; MAX_LENGTH], words: &[u8]) {
    let mut start: usize = 0;
    let mut next: usize = 0;
    let mut rest = words;
    while first_word(rest).len() > 0 {
        let slash = is_slash(first_word(rest));
        start = begun(slash, start, next);
        next = put_more(room, slash, start, next);
        rest = after_word(rest);
    }
}
