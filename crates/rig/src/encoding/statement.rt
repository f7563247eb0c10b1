// What a line of an event list says.
use crate::trouble::{Fault, Wrong};
use rig_lines::numbers::{is_number, value};
use text::{after_word, first_word};
use trace::MAX_STAMP;
use trace_text::Said;

const LARGEST_LEVEL: u64 = 3;

// What a line says; words of it by where they stand, in bytes before its end.
#[derive(Clone, Copy)]
pub(crate) enum Statement {
    Nothing,
    Start(u32),
    Gap(u32),
    Event(u16),
    // event numbers, and whether the line looks like a sample of a trace
    Numbers(usize, bool),
}

// No number after `start` or `gap`, or more than one: the last of two words is met.
fn wrong_setting(rest: &[u8], none: Fault, met: Fault) -> Wrong {
    let more = after_word(rest);
    if first_word(rest).is_empty() {
        return none.at(0);
    }
    if first_word(more).is_empty() {
        return met.at(rest.len());
    }
    met.at(more.len())
}

// `start N`
fn start(rest: &[u8]) -> Result<Statement, Wrong> {
    let start = value(text::decimal(first_word(rest)));
    if (start <= MAX_STAMP) & first_word(after_word(rest)).is_empty() {
        return Ok(Statement::Start(start as u32));
    }
    Err(wrong_setting(rest, Fault::NoStart, Fault::WrongStart))
}

// `gap N`; the library refuses a gap that is too large
fn gap(rest: &[u8]) -> Result<Statement, Wrong> {
    let gap = text::decimal(first_word(rest));
    if is_number(gap) & first_word(after_word(rest)).is_empty() {
        return Ok(Statement::Gap(value(gap).min(MAX_STAMP) as u32));
    }
    Err(wrong_setting(rest, Fault::NoGap, Fault::WrongGap))
}

// Whether the words of a line could be a stamp and a level.
fn is_sample(words: &[u8]) -> bool {
    let rest = after_word(words);
    let third = first_word(after_word(rest));
    (value(text::decimal(first_word(rest))) <= LARGEST_LEVEL) & third.is_empty()
}

// The events that words say, which stand after a stamp or alone.
fn events(words: &[u8], stamped: bool) -> Result<Statement, Wrong> {
    match trace_text::parse(words) {
        Said::Event(event) => Ok(Statement::Event(event)),
        Said::Numbers => Ok(Statement::Numbers(words.len(), !stamped & is_sample(words))),
        Said::Malformed => Err(Fault::NoEvent.at(words.len())),
        Said::WrongDirection => Err(Fault::WrongDirection.at(words.len())),
    }
}

pub(crate) fn parse(line: &[u8]) -> Result<Statement, Wrong> {
    let word = first_word(line);
    let rest = after_word(line);
    match word {
        b"" | b"ok" | b"look" | b"note:" => Ok(Statement::Nothing),
        b"start" => start(rest),
        b"gap" => gap(rest),
        // a stamp, as rig decode prints it
        [.., b':'] if first_word(rest).is_empty() => Err(Fault::NoEvent.at(line.len())),
        [.., b':'] => events(rest, true),
        _ => events(line, false),
    }
}
