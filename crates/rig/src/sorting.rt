// rig sort: the samples of a capture in the order of their stamps, one a line.
use crate::decoding::crossed::{falls, stamp_at};
use crate::decoding::refuse;
use crate::encoding::show_all;
use crate::lines::{end, say_numbers};
use rig_lines::console::PAGE;
use rig_lines::store::line_at;
use trace::MAX_SAMPLES;

// The refusal of two samples with one stamp.
const TAKEN: u8 = 7;

// How many samples have a stamp that is not above that of the one before them.
fn out_of_order(stamps: &[u32]) -> u64 {
    (0..stamps.len()).filter(|i| falls(stamps, *i)).count() as u64
}

// Two samples have one stamp.
fn taken(page: &mut [u8; PAGE], stamps: &[u32], lines: &[u64], place: usize) -> usize {
    let stamp = stamp_at(stamps, place);
    let earlier = stamps.iter().position(|other| *other == stamp);
    let first = earlier.map_or(0, |i| line_at(lines, i));
    let numbers = [place as u64, line_at(lines, place), first];
    let words = b"refused 7 sample # (line #): its stamp is that of line #";
    say_numbers(page, 0, words, &numbers)
}

// The last line: none, all in order, or some not.
fn sorted(page: &mut [u8; PAGE], at: usize, count: usize, crossed: u64) -> usize {
    if count == 0 {
        return end(page, at, b"look 0 samples");
    }
    let count = count as u64;
    if crossed == 0 {
        return say_numbers(page, at, b"ok # sample~, all in order", &[count]);
    }
    say_numbers(page, at, b"ok # sample~, # out of order", &[count, crossed])
}

// Hands a capture to the library, and shows it in order.
pub(crate) fn answer(
    page: &mut [u8; PAGE],
    unpaired: u64,
    stamps: &[u32],
    levels: &[u8],
    lines: &[u64],
) -> usize {
    let mut ordered_stamps = [0u32; MAX_SAMPLES];
    let mut ordered_levels = [0u8; MAX_SAMPLES];
    match trace_sort::sort(stamps, levels, &mut ordered_stamps, &mut ordered_levels) {
        Err(refusal) if refusal.number == TAKEN => taken(page, stamps, lines, refusal.place),
        Err(refusal) => refuse(page, refusal, unpaired, stamps, lines),
        Ok(()) => {
            let count = stamps.len();
            let next = show_all(page, &ordered_stamps, &ordered_levels, count);
            sorted(page, next, count, out_of_order(stamps))
        }
    }
}
