// rig encode: an event list in words or numbers, drawn as a trace that rig decode reads.
mod listing; // listing.rt: an event list read from its lines
mod statement; // statement.rt: what a line of it says

use crate::hints;
use crate::lines::say_numbers;
use listing::{EVENTS, Listing};
use rig_lines::console::PAGE;
use rig_lines::files::Reader;
use rig_lines::input::Source;
use rig_lines::refusals::put_refusal;
use rig_lines::{input, parts};
use std::rt::Env;
use trace::MAX_SAMPLES;

// The refusal of a list that is not complete.
const INCOMPLETE: u8 = 9;

fn show_sample(page: &mut [u8; PAGE], at: usize, stamp: u32, level: u8) -> usize {
    say_numbers(page, at, b"# #", &[stamp as u64, level as u64])
}

// Shows the first samples of a trace, so many, one a line.
pub(crate) fn show_all(
    page: &mut [u8; PAGE],
    stamps: &[u32],
    levels: &[u8],
    count: usize,
) -> usize {
    let mut next: usize = 0;
    for (stamp, level) in stamps.iter().zip(levels).take(count) {
        next = show_sample(page, next, *stamp, *level);
    }
    next
}

// Hands an event list to the library, and shows the trace that it draws.
fn answer(
    page: &mut [u8; PAGE],
    listing: Listing,
    events: &[u16],
    stamps: &mut [u32],
    levels: &mut [u8],
) -> usize {
    match encode::encode(events, listing.start, listing.gap, stamps, levels) {
        Err(refusal) => {
            let next = put_refusal(page, 0, refusal.number);
            let hint = hints::trace(listing.like_trace() & (refusal.number == INCOMPLETE));
            hints::end(page, next, hint)
        }
        Ok(count) => {
            let next = show_all(page, stamps, levels, count);
            say_numbers(page, next, b"ok # sample~", &[count as u64])
        }
    }
}

// What was read, with the room that is lent.
fn answer_part(page: &mut [u8; PAGE], listing: Listing, events: &[u16], room: usize) -> usize {
    let mut stamps = [0u32; MAX_SAMPLES];
    let mut levels = [0u8; MAX_SAMPLES];
    let count = parts::lent(listing.count, events);
    let stamp_room = parts::lent(room, &stamps);
    let level_room = parts::lent(room, &levels);
    answer(
        page,
        listing,
        &events[..count],
        &mut stamps[..stamp_room],
        &mut levels[..level_room],
    )
}

// The same, where every line was understood.
fn answer_read<E: Env>(
    env: &E,
    page: &mut [u8; PAGE],
    listing: Listing,
    line: &[u8; input::ROOM],
    events: &[u16; EVENTS],
    room: usize,
) -> usize {
    match listing.progress.wrong {
        Some(wrong) => listing.complain(env, page, line, wrong),
        None => answer_part(page, listing, events, room),
    }
}

pub(crate) fn run<E: Env>(
    env: &E,
    reader: &mut Reader,
    page: &mut [u8; PAGE],
    source: Source,
    room: usize,
) -> usize {
    let mut piece = [0u8; PAGE];
    let mut line = [0u8; input::ROOM];
    let mut events = [0u16; EVENTS];
    let listing = listing::read_all(
        reader,
        Listing::new(source),
        &mut piece,
        &mut line,
        &mut events,
    );
    answer_read(env, page, listing, &line, &events, room)
}
