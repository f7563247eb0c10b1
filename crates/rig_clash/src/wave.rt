// The bytes carried with their acknowledges, and the lines of the bus as text, a character a sample, as logic
// analysers print them, in rows with the bytes and bits above and the losers below.
use crate::kept::{ACKS, ACKS_AT};
use crate::load::Load;
use crate::order::byte_at;
use crate::outcome::Outcome;
use crate::phrase::{begin_numbers, gap_of, put_front, put_in, put_line, put_numbers};
use crate::rows::Next;
use crate::{kept, order, rows};
use rig_lines::console::{PAGE, begin};
use text::{put_byte, put_bytes};

// The columns in front of a row.
const FRONT: usize = 10;

// A byte that was carried, and its acknowledge.
fn put_byte_at(
    page: &mut [u8; PAGE],
    at: usize,
    carried: &[u8],
    acks: &[u8],
    parts: &[u8],
    i: usize,
) -> usize {
    let gap = put_bytes(page, at, gap_of(i, byte_at(parts, i), b", "));
    let words: &[u8] = if byte_at(acks, i) == 0 {
        b"% ACK"
    } else {
        b"% NACK"
    };
    put_numbers(page, gap, words, &[byte_at(carried, i) as u64])
}

fn put_carried(
    page: &mut [u8; PAGE],
    at: usize,
    carried: &[u8],
    acks: &[u8],
    parts: &[u8],
    count: usize,
) -> usize {
    let mut next = at;
    for i in 0..count {
        next = put_byte_at(page, next, carried, acks, parts, i);
    }
    next
}

// A line of the bus.
#[derive(Clone, Copy)]
pub(crate) enum Wire {
    Scl,
    Sda,
}

// A line of the bus at a recorded level; past them all it is low.
pub(crate) fn is_high_at(levels: &[u8], at: usize, wire: Wire) -> bool {
    let level = byte_at(levels, at);
    match wire {
        Wire::Scl => levels::scl(level),
        Wire::Sda => levels::sda(level),
    }
}

// The character of a sample: a rise, a fall, or the level that stays.
fn mark_at(levels: &[u8], at: usize, wire: Wire) -> u8 {
    let high = is_high_at(levels, at, wire);
    let before = is_high_at(levels, at.saturating_sub(1), wire);
    if high & !before {
        return b'/';
    }
    if before & !high {
        return b'\\';
    }
    if high { b'"' } else { b'.' }
}

// The marks from one recorded level to another.
fn put_marks(
    page: &mut [u8; PAGE],
    at: usize,
    levels: &[u8],
    from: usize,
    end: usize,
    wire: Wire,
) -> usize {
    let mut next = at;
    for i in from..end {
        next = put_byte(page, next, mark_at(levels, i, wire));
    }
    next
}

// The column of a byte in a row that begins with a byte.
fn column_of(parts: &[u8], first: usize, byte: usize) -> usize {
    rows::column_of(parts, first, byte).saturating_add(FRONT)
}

// A byte above its columns, and what follows it.
fn put_name(
    page: &mut [u8; PAGE],
    start: usize,
    at: usize,
    carried: &[u8],
    parts: &[u8],
    first: usize,
    byte: usize,
    count: usize,
) -> usize {
    let column = column_of(parts, first, byte);
    let end = column.saturating_add(rows::BYTE);
    let (words, after): (&[u8], usize) = match rows::next_of(parts, byte, count) {
        Next::Byte => (b"_|%", end),
        Next::Restart => (b"_|%_Sr", end.saturating_add(1)),
        Next::Stop => (b"_|%_P", end.saturating_add(2)),
    };
    let numbers = [column as u64, byte_at(carried, byte) as u64, after as u64];
    put_in(page, start, at, b"", words, &numbers)
}

// The bytes of a row above their columns.
fn put_names(
    page: &mut [u8; PAGE],
    at: usize,
    carried: &[u8],
    parts: &[u8],
    first: usize,
    count: usize,
) -> usize {
    let start = begin(page, at);
    let words: &[u8] = if first == 0 {
        b"  byte #_ S"
    } else {
        b"  byte #"
    };
    let mut next = put_numbers(page, start, words, &[first as u64, FRONT as u64]);
    for byte in first..rows::end_of(first, count) {
        next = put_name(page, start, next, carried, parts, first, byte, count);
    }
    put_byte(page, next, b'\n')
}

// The bits of a byte and its acknowledge, with a space between.
fn put_bits_of(
    page: &mut [u8; PAGE],
    start: usize,
    at: usize,
    column: usize,
    byte: u8,
    ack: u8,
) -> usize {
    let words: &[u8] = if ack == 0 {
        b"_# # # # # # # # A"
    } else {
        b"_# # # # # # # # N"
    };
    let numbers = [
        column as u64,
        (byte / 128) as u64,
        (byte / 64 % 2) as u64,
        (byte / 32 % 2) as u64,
        (byte / 16 % 2) as u64,
        (byte / 8 % 2) as u64,
        (byte / 4 % 2) as u64,
        (byte / 2 % 2) as u64,
        (byte % 2) as u64,
    ];
    put_in(page, start, at, b"", words, &numbers)
}

// The bits of the bytes of a row, by their columns.
fn put_bits(
    page: &mut [u8; PAGE],
    at: usize,
    carried: &[u8],
    acks: &[u8],
    parts: &[u8],
    first: usize,
    count: usize,
) -> usize {
    let start = begin(page, at);
    let mut next = start;
    for byte in first..rows::end_of(first, count) {
        let column = column_of(parts, first, byte);
        next = put_bits_of(
            page,
            start,
            next,
            column,
            byte_at(carried, byte),
            byte_at(acks, byte),
        );
    }
    put_byte(page, next, b'\n')
}

// A line of the bus in a row.
fn put_signal(
    page: &mut [u8; PAGE],
    at: usize,
    words: &[u8],
    levels: &[u8],
    from: usize,
    end: usize,
    wire: Wire,
) -> usize {
    let word = begin_numbers(page, at, words, &[FRONT as u64]);
    let marks = put_marks(page, word, levels, from, end, wire);
    put_byte(page, marks, b'\n')
}

// A board that lost at a byte of a row, under the bit.
fn put_loser(
    page: &mut [u8; PAGE],
    at: usize,
    kept: &[u8],
    load: Load,
    outcome: Outcome,
    parts: &[u8],
    first: usize,
    board: usize,
) -> usize {
    let lost = rows::lost_in(
        load,
        outcome,
        board,
        first,
        rows::end_of(first, outcome.count),
    );
    let column = rows::lost_column(load, outcome, parts, board, first).saturating_add(FRONT);
    put_line(
        page,
        at,
        kept,
        lost,
        b"  lost_^ @",
        &[column as u64, board as u64],
    )
}

fn put_losers(
    page: &mut [u8; PAGE],
    at: usize,
    kept: &[u8],
    load: Load,
    outcome: Outcome,
    parts: &[u8],
    first: usize,
) -> usize {
    let mut next = at;
    for board in 0..load.boards {
        next = put_loser(page, next, kept, load, outcome, parts, first, board);
    }
    next
}

// The two lines of the bus in a row.
fn put_signals(
    page: &mut [u8; PAGE],
    at: usize,
    levels: &[u8],
    parts: &[u8],
    outcome: Outcome,
    first: usize,
) -> usize {
    let from = rows::first_level(parts, first);
    let end = rows::end_level(parts, rows::end_of(first, outcome.count), outcome);
    let scl = put_signal(page, at, b"  scl_", levels, from, end, Wire::Scl);
    put_signal(page, scl, b"  sda_", levels, from, end, Wire::Sda)
}

// All rows, by their first bytes.
fn put_rows(
    page: &mut [u8; PAGE],
    at: usize,
    kept: &[u8],
    load: Load,
    outcome: Outcome,
    parts: &[u8],
    carried: &[u8],
    levels: &[u8],
) -> usize {
    let acks = kept::part(kept, ACKS_AT, ACKS);
    let mut next = at;
    for row in 0..rows::count_of(outcome.count) {
        let first = rows::first_of(row);
        next = put_names(page, next, carried, parts, first, outcome.count);
        next = put_bits(page, next, carried, acks, parts, first, outcome.count);
        next = put_signals(page, next, levels, parts, outcome, first);
        next = put_losers(page, next, kept, load, outcome, parts, first);
    }
    next
}

// What the bus carried in a rehearsal; parts: those of a message that won.
pub(crate) fn put(
    page: &mut [u8; PAGE],
    at: usize,
    kept: &[u8],
    load: Load,
    outcome: Outcome,
    carried: &[u8],
    levels: &[u8],
) -> usize {
    let acks = kept::part(kept, ACKS_AT, ACKS);
    let parts = order::parts(kept, load, outcome.winner);
    let word = put_front(page, at, kept, b"  carried ", &[]);
    let said = put_carried(page, word, carried, acks, parts, outcome.count);
    let next = put_byte(page, said, b'\n');
    put_rows(page, next, kept, load, outcome, parts, carried, levels)
}
