// The rows of a waveform: a column for each recorded level, three bytes a row.
use crate::kept::part;
use crate::load::Load;
use crate::order::byte_at;
use crate::outcome::{Outcome, recorded};
use arbitration_rules::MAX_LENGTH;
use load_text::count_parts;

// The bytes of a row.
pub(crate) const ROW: usize = 3;

// The columns of a byte with its acknowledge: two for each bit.
pub(crate) const BYTE: usize = 18;

// The bits on the bus for each byte: eight, and the acknowledge.
pub(crate) const BITS: usize = 9;

// The first recorded level of a byte: every part begun up to it, but the first, begins with a restart.
pub(crate) fn level_of(parts: &[u8], byte: usize) -> usize {
    let begun = count_parts(part(parts, 0, byte.saturating_add(1)));
    recorded(byte, begun.saturating_sub(1))
}

// The first recorded level of a row that begins with a byte: START's, or the byte's own.
pub(crate) fn first_level(parts: &[u8], first: usize) -> usize {
    if first == 0 {
        return 0;
    }
    level_of(parts, first)
}

// The column of a byte in a row that begins with a byte.
pub(crate) fn column_of(parts: &[u8], first: usize, byte: usize) -> usize {
    level_of(parts, byte).saturating_sub(first_level(parts, first))
}

// The byte past the last of a row.
pub(crate) fn end_of(first: usize, count: usize) -> usize {
    first.saturating_add(ROW).min(count)
}

// The level past the last of a row that ends before a byte.
pub(crate) fn end_level(parts: &[u8], end: usize, outcome: Outcome) -> usize {
    if end >= outcome.count {
        return outcome.levels;
    }
    level_of(parts, end)
}

// How many rows there are for so many bytes, and the first byte of each.
pub(crate) fn count_of(count: usize) -> usize {
    (count.min(MAX_LENGTH) + ROW - 1) / ROW
}

pub(crate) fn first_of(row: usize) -> usize {
    row.min(MAX_LENGTH) * ROW
}

// What follows a byte: another, a repeated START, or STOP.
#[derive(Clone, Copy)]
pub(crate) enum Next {
    Byte,
    Restart,
    Stop,
}

pub(crate) fn next_of(parts: &[u8], byte: usize, count: usize) -> Next {
    let next = byte.saturating_add(1);
    if next >= count {
        return Next::Stop;
    }
    if byte_at(parts, next) > 0 {
        return Next::Restart;
    }
    Next::Byte
}

// A board lost at a byte from one on, before another.
pub(crate) fn lost_in(
    load: Load,
    outcome: Outcome,
    board: usize,
    first: usize,
    end: usize,
) -> bool {
    let seat = outcome.seat_of(load, board);
    let byte = seat.position as usize / BITS;
    let within = (first <= byte) & (byte < end);
    within & !seat.contending & !load.is_silent(board)
}

// The column of the bit where a board lost.
pub(crate) fn lost_column(
    load: Load,
    outcome: Outcome,
    parts: &[u8],
    board: usize,
    first: usize,
) -> usize {
    let seat = outcome.seat_of(load, board);
    let position = seat.position as usize;
    column_of(parts, first, position / BITS).saturating_add(2 * (position % BITS))
}

// How many boards lost at a byte from one on, before another.
pub(crate) fn losers(load: Load, outcome: Outcome, first: usize, end: usize) -> usize {
    (0..load.boards)
        .filter(|board| lost_in(load, outcome, *board, first, end))
        .count()
}
