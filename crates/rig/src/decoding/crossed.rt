// A stamp that does not rise: packets of samples that look exchanged on the way.
use crate::lines::{end, put_numbers, say_numbers};
use rig_lines::console::PAGE;
use rig_lines::store::line_at;
use text::{put_bytes, put_decimal};

pub(crate) fn stamp_at(stamps: &[u32], place: usize) -> u32 {
    stamps.get(place).copied().unwrap_or(0)
}

// The stamp of a sample is not above that of the one before it.
pub(crate) fn falls(stamps: &[u32], place: usize) -> bool {
    (place > 0) & (stamp_at(stamps, place) <= stamp_at(stamps, place.saturating_sub(1)))
}

// The last sample from one on up to which all rise and are below a stamp.
fn last_below(stamps: &[u32], from: usize, limit: u32) -> usize {
    (from..stamps.len())
        .skip(1)
        .take_while(|next| (stamp_at(stamps, *next) < limit) & !falls(stamps, *next))
        .last()
        .unwrap_or(from)
}

// The lines of the samples from one up to another.
fn put_range(page: &mut [u8; PAGE], at: usize, lines: &[u64], from: usize, to: usize) -> usize {
    let first = put_decimal(page, at, line_at(lines, from));
    if from == to {
        return first;
    }
    put_numbers(page, first, b" to #", &[line_at(lines, to)])
}

// Which lines look exchanged: those from a sample that comes too early up to a place, and those from there to another.
fn say_exchanged(
    page: &mut [u8; PAGE],
    at: usize,
    lines: &[u64],
    first: usize,
    place: usize,
    last: usize,
) -> usize {
    let lines_from = put_bytes(page, at, b"; lines ");
    let front = put_range(page, lines_from, lines, first, place.saturating_sub(1));
    let also = put_bytes(page, front, b" and ");
    let back = put_range(page, also, lines, place, last);
    end(
        page,
        back,
        b" look exchanged: rig sort puts samples in order",
    )
}

// Ends the refusal of a sample whose stamp does not rise: which line has its stamp, or which look exchanged.
pub(crate) fn say_why(
    page: &mut [u8; PAGE],
    at: usize,
    stamps: &[u32],
    lines: &[u64],
    place: usize,
) -> usize {
    let stamp = stamp_at(stamps, place);
    let met = stamps.iter().position(|other| *other >= stamp);
    let first = met.unwrap_or(stamps.len());
    let limit = stamp_at(stamps, first);
    if limit == stamp {
        let numbers = [line_at(lines, first)];
        return say_numbers(page, at, b"; its stamp is that of line #", &numbers);
    }
    let last = last_below(stamps, place, limit);
    say_exchanged(page, at, lines, first, place, last)
}
