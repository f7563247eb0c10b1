// rig decode: the events of a trace, with the stamps at which they were complete.
pub(crate) mod captured; // captured.rt: a trace read from a Value Change Dump
pub(crate) mod crossed; // crossed.rt: packets that look exchanged
pub(crate) mod samples; // samples.rt: a trace read from its lines
mod shown; // shown.rt: the events one a line

use crate::arguments::Arguments;
use crate::lines::{end, put_numbers, say_numbers};
use decode::Decoded;
use laws::Refusal;
use rig_lines::console::PAGE;
use rig_lines::refusals::{put_refusal, put_sample_refusal, put_stamp_refusal};
use rig_lines::{parts, store};
use shown::Shown;
use trace::{MAX_GAP, MAX_SAMPLES};

// No trace that the library takes lists more events than it has samples.
const EVENTS: usize = MAX_SAMPLES;

// The refusals of a stamp without a level, and of one that does not rise.
const UNPAIRED: u8 = 5;

const CROSSED: u8 = 7;

// The first stamp and the gap, so that rig encode draws the trace again.
fn show_start(page: &mut [u8; PAGE], at: usize, stamps: &[u32]) -> usize {
    if stamps.is_empty() {
        return at;
    }
    let gap = trace_gaps::even(stamps);
    let next = say_numbers(page, at, b"start #", &[crossed::stamp_at(stamps, 0) as u64]);
    if (gap == 0) | (gap > MAX_GAP) {
        return next;
    }
    say_numbers(page, next, b"gap #", &[gap as u64])
}

// The words that begin the last line: a frame that is open needs a look.
fn verdict(shown: Shown, framed: bool) -> &'static [u8] {
    if framed {
        return b"look # event~ in # sample~, frame open, # bit~ pending";
    }
    if (shown.cut_bytes > 0) | (shown.long_gaps > 0) | !shown.bytes {
        return b"look # event~ in # sample~, no frame open, # bit~ pending";
    }
    b"ok # event~ in # sample~, no frame open, # bit~ pending"
}

// What there is some of.
fn put_some(page: &mut [u8; PAGE], at: usize, words: &[u8], number: u64) -> usize {
    if number == 0 {
        return at;
    }
    put_numbers(page, at, words, &[number])
}

// How the trace ends.
fn put_ending(
    page: &mut [u8; PAGE],
    at: usize,
    words: &[u8],
    samples: usize,
    ending: Decoded,
) -> usize {
    let numbers = [ending.count as u64, samples as u64, ending.pending as u64];
    let pending = put_numbers(page, at, words, &numbers);
    // also where there is none, since the page may be full here: then it is written in two
    let value: &[u8] = match ending.pending {
        0 => b"",
        _ => b", value %h",
    };
    put_numbers(page, pending, value, &[ending.value as u64])
}

// The last line: how the trace ends, and what was met that needs a look.
fn summary(page: &mut [u8; PAGE], shown: Shown, samples: usize, ending: Decoded) -> usize {
    let front = put_ending(
        page,
        shown.at,
        verdict(shown, ending.framed),
        samples,
        ending,
    );
    let cuts = put_some(page, front, b", # cut byte~", shown.cut_bytes);
    let gaps = put_some(page, cuts, b", # long gap~", shown.long_gaps);
    if shown.bytes {
        return end(page, gaps, b"");
    }
    end(page, gaps, b", no byte in any frame")
}

// A refusal, with the line of its sample; a sample of a dump has no line, and is named by its stamp.
fn put_refused(page: &mut [u8; PAGE], number: u8, place: usize, stamp: u32, line: u64) -> usize {
    match number {
        4 | 7 | 18 => {
            if line == 0 {
                return put_stamp_refusal(page, 0, number, place, stamp);
            }
            put_sample_refusal(page, 0, number, place, line)
        }
        _ => put_refusal(page, 0, number),
    }
}

// A trace that the library refuses; the first line of it with a stamp and no level is given.
pub(crate) fn refuse(
    page: &mut [u8; PAGE],
    refusal: Refusal,
    unpaired: u64,
    stamps: &[u32],
    lines: &[u64],
) -> usize {
    let number = refusal.number;
    let place = refusal.place;
    let stamp = crossed::stamp_at(stamps, place);
    let next = put_refused(page, number, place, stamp, store::line_at(lines, place));
    if number == CROSSED {
        return crossed::say_why(page, next, stamps, lines, place);
    }
    if number == UNPAIRED {
        return say_numbers(page, next, b"; line # has no level", &[unpaired]);
    }
    end(page, next, b"")
}

// What the library says of a trace, of which only the samples that change a level are held to the limit.
fn decoded_thin(stamps: &[u32], levels: &[u8], events: &mut [u16]) -> Result<Decoded, Refusal> {
    let mut left_stamps = [0u32; MAX_SAMPLES];
    let mut left_levels = [0u8; MAX_SAMPLES];
    let count = trace_thin::thin(stamps, levels, &mut left_stamps, &mut left_levels)?;
    let left = parts::lent(count, &left_stamps);
    let also = parts::lent(count, &left_levels);
    decode::decode(&left_stamps[..left], &left_levels[..also], events)
}

// What the library says of a trace.
fn decoded(given: Arguments, stamps: &[u32], levels: &[u8]) -> Result<Decoded, Refusal> {
    let mut events = [0u16; EVENTS];
    let lent = parts::lent(given.room, &events);
    if given.thin {
        return decoded_thin(stamps, levels, &mut events[..lent]);
    }
    phases::decode_in(given.mode(), stamps, levels, &mut events[..lent])
}

// Shows a trace that the library has read. The gaps of a dump are not judged: it has no lines.
fn show(
    page: &mut [u8; PAGE],
    at: usize,
    stamps: &[u32],
    levels: &[u8],
    lines: &[u64],
    ending: Decoded,
) -> usize {
    let usual = shown::inside(!lines.is_empty(), trace_gaps::usual(stamps, levels));
    let next = show_start(page, at, stamps);
    let shown = shown::show_all(page, next, stamps, levels, lines, usual);
    summary(page, shown, levels.len(), ending)
}

// Hands a trace to the library, and shows what it answers: the events from a position of the page on, a refusal alone.
pub(crate) fn answer(
    page: &mut [u8; PAGE],
    at: usize,
    given: Arguments,
    unpaired: u64,
    stamps: &[u32],
    levels: &[u8],
    lines: &[u64],
) -> usize {
    match decoded(given, stamps, levels) {
        Err(refusal) => refuse(page, refusal, unpaired, stamps, lines),
        Ok(ending) => show(page, at, stamps, levels, lines, ending),
    }
}
