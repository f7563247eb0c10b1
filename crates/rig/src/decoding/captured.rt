// A trace read from a Value Change Dump.
use super::answer;
use crate::arguments::Arguments;
use crate::lines::{end, put, say_numbers};
use crate::trouble;
use dump_reader::LONGEST_TEXT;
use rig_lines::console::PAGE;
use rig_lines::input::Source;
use rig_lines::lists::line_of;
use rig_lines::parts;
use rig_lines::refusals::{put_byte_refusal, put_refusal};
use std::rt::Env;
use text::{first_line, first_word, put_bytes};
use trace::MAX_SAMPLES;

// One byte more than the longest text, so that the library sees a text that is too long.
pub(crate) const TEXT: usize = LONGEST_TEXT + 1;

// What the modes count: 100 ns, in femtoseconds.
const MODES_UNIT: u64 = 100000000;

fn is_blank(b: u8) -> bool {
    matches!(b, b' ' | b'\t' | b'\n' | b'\r')
}

// Whether a text begins as a dump does: with `$`, blanks aside.
pub(crate) fn begins(text: &[u8]) -> bool {
    matches!(text.iter().find(|b| !is_blank(**b)), Some(b'$'))
}

// The line of a byte.
fn line_of_byte(text: &[u8], place: usize) -> u64 {
    let passed = text.iter().take(place).filter(|b| **b == b'\n').count();
    (passed as u64).saturating_add(1)
}

fn put_refused(page: &mut [u8; PAGE], text: &[u8], number: u8, place: usize) -> usize {
    match number {
        6 | 26 => put_refusal(page, 0, number),
        _ => put_byte_refusal(page, 0, number, place, line_of_byte(text, place)),
    }
}

// What to do about a refusal; of 6, too many samples, the same as of 26.
fn advice(number: u8) -> &'static [u8] {
    match number {
        20 => b"capture from where both lines have a level",
        21 => b"packets may have crossed: export the capture again",
        22 => b"dump only the two wires",
        23 => b"the file may be cut: copy it again",
        24 => b"declare SCL, then SDA, each as wire 1, and dump only these two",
        25 => b"choose a coarser timescale",
        27 => b"export a Value Change Dump of SCL and SDA alone",
        _ => b"dump a shorter time",
    }
}

// A dump that is not read: at which word, where there is one, and what to do about it.
fn refuse(page: &mut [u8; PAGE], text: &[u8], number: u8, place: usize) -> usize {
    let from = parts::lent(place, text);
    let word = first_word(first_line(&text[from..]));
    let met = !word.is_empty() & (number != 6) & (number != 26);
    let next = put_refused(page, text, number, place);
    let named = if met {
        put(page, next, b": $", &[], word)
    } else {
        next
    };
    let advised = put_bytes(page, named, b"; ");
    end(page, advised, advice(number))
}

// Ends a line with a timescale as it is said, 1, 10 or 100 of a unit.
fn say_unit(page: &mut [u8; PAGE], at: usize, timescale: u64) -> usize {
    let mut left = timescale;
    let mut unit: usize = 0;
    while left >= 1000 {
        left /= 1000;
        unit = (unit + 1).min(5);
    }
    let words = line_of(b"# fs\n# ps\n# ns\n# us\n# ms\n# s\n", unit);
    say_numbers(page, at, words, &[left])
}

// What the stamps count.
fn show_unit(page: &mut [u8; PAGE], timescale: u64) -> usize {
    if timescale == 0 {
        return end(page, 0, b"# a Value Change Dump with no timescale");
    }
    let next = put_bytes(page, 0, b"# a Value Change Dump whose stamps count ");
    say_unit(page, next, timescale)
}

// A dump whose stamps count something else than a mode needs.
fn unfit(page: &mut [u8; PAGE], option: &[u8], timescale: u64) -> usize {
    let error = put_bytes(page, 0, b"error ");
    let mode = put_bytes(page, error, option);
    let needs = put_bytes(
        page,
        mode,
        b" needs stamps that count 100 ns, and this dump ",
    );
    if timescale == 0 {
        return end(page, needs, b"has no timescale");
    }
    let counts = put_bytes(page, needs, b"counts ");
    say_unit(page, counts, timescale)
}

// Shows the trace of a dump, of which no sample is dropped.
fn show(
    page: &mut [u8; PAGE],
    mut given: Arguments,
    timescale: u64,
    count: usize,
    stamps: &[u32],
    levels: &[u8],
) -> usize {
    given.thin = false;
    let stamp_count = parts::lent(count, stamps);
    let level_count = parts::lent(count, levels);
    let at = show_unit(page, timescale);
    answer(
        page,
        at,
        given,
        0,
        &stamps[..stamp_count],
        &levels[..level_count],
        &[],
    )
}

// Reads a dump, unless the input failed within its text.
pub(crate) fn run<E: Env>(
    env: &E,
    page: &mut [u8; PAGE],
    given: Arguments,
    source: Source,
    text: &[u8],
) -> usize {
    if source.errno != 0 {
        return trouble::unread(env, page, source);
    }
    let mut stamps = [0u32; MAX_SAMPLES];
    let mut levels = [0u8; MAX_SAMPLES];
    match dump_reader::read(text, &mut stamps, &mut levels) {
        Err(refusal) => refuse(page, text, refusal.number, refusal.place),
        Ok(read) => match given.mode_option() {
            Some(option) if read.timescale != MODES_UNIT => unfit(page, option, read.timescale),
            _ => show(page, given, read.timescale, read.count, &stamps, &levels),
        },
    }
}
