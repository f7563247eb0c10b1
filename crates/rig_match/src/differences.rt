// Where a frame differs from what was rehearsed, and whose bytes it has.
use crate::reported::Said;
use crate::shown::NO_EVENT;
use event_match::{Difference, Part};
use frame_match::{FROM, TO, get, span};

// An event of a list, as far as it has one.
fn event_at(events: &[u16], index: usize) -> u16 {
    events.get(index).copied().unwrap_or(NO_EVENT)
}

// The place of a bit on the bus, where the most significant is sent first.
fn place_of(bit: u8) -> u64 {
    7u64.saturating_sub(bit as u64)
}

fn is_acknowledge(part: Part) -> bool {
    matches!(part, Part::Acknowledge)
}

// A message is on the bus up to and with the event at an index, whatever its acknowledge.
fn goes_on(message: &[u16], seen: &[u16], index: usize) -> bool {
    let Some(found) = event_match::compare(message, seen) else {
        return true;
    };
    (found.index > index) | ((found.index == index) & is_acknowledge(found.part))
}

// The first board whose bytes these are, of those in rows, as the phrases name it: by its row; 0 where none has them.
fn owner(book: &[u32], events: &[u16], from: usize, end: usize, seen: &[u16], index: usize) -> u64 {
    let has = |row: &usize| {
        let message = span(events, get(book, *row, FROM), get(book, *row, TO));
        goes_on(message, seen, index)
    };
    (from..end).find(has).map_or(0, |row| row as u64)
}

// How a frame differs from that of a load, whose boards end at a row.
pub(crate) fn said(book: &[u32], events: &[u16], frame: &[u16], load: usize, end: usize) -> Said {
    let rehearsed = span(events, get(book, load, FROM), get(book, load, TO));
    let first = load.saturating_add(1);
    let Some(Difference { index, byte, part }) = event_match::compare(rehearsed, frame) else {
        let who = owner(book, events, first, end, frame, frame.len());
        return Said::new(b"$[; those are $'s bytes]", [load as u64, who, 0, 0, 0, 0]);
    };
    let who = owner(book, events, first, end, frame, index);
    let one = event_at(rehearsed, index) as u64;
    let other = event_at(frame, index) as u64;
    let at = byte as u64;
    match part {
        Part::Bit(bit) => Said::new(
            b"$ differs at byte # bit #: rehearsed %, bus %[; those are $'s bytes]",
            [load as u64, at, place_of(bit), one, other, who],
        ),
        Part::Acknowledge => Said::new(
            b"$ differs at byte # (%): rehearsed !, bus ![; those are $'s bytes]",
            [load as u64, at, one, one, other, who],
        ),
        Part::Other => Said::new(
            b"$ differs at byte #: rehearsed @, bus @[; those are $'s bytes]",
            [load as u64, at, one, other, who, 0],
        ),
    }
}
