// What a refusal is about: the longest message, a part that is a read, the least message, and two that part.
use crate::kept;
use crate::load::Load;
use arbitration_rules::MAX_LENGTH;

pub(crate) fn byte_at(bytes: &[u8], at: usize) -> u8 {
    bytes.get(at).copied().unwrap_or(0)
}

// How many acknowledges stand before the first above a value.
pub(crate) fn first_above(acks: &[u8], value: u8) -> usize {
    acks.iter()
        .position(|ack| *ack > value)
        .unwrap_or(acks.len())
}

// The first of the longest boards, where there is one.
pub(crate) fn longest(load: Load) -> Option<usize> {
    let most = load.longest();
    (0..load.boards).find(|board| !load.is_silent(*board) & (load.length_of(*board) == most))
}

pub(crate) fn message(kept: &[u8], load: Load, board: usize) -> &[u8] {
    kept::row(
        kept,
        kept::row_of(kept::MESSAGES_AT, board),
        0,
        load.length_of(board) as usize,
    )
}

pub(crate) fn parts(kept: &[u8], load: Load, board: usize) -> &[u8] {
    kept::row(
        kept,
        kept::row_of(kept::PARTS_AT, board),
        0,
        load.length_of(board) as usize,
    )
}

// How many bytes stand before the first byte of a part that is odd, a read.
pub(crate) fn first_read(message: &[u8], parts: &[u8]) -> usize {
    for (i, byte) in message.iter().enumerate() {
        if (*byte % 2 == 1) & (byte_at(parts, i) > 0) {
            return i;
        }
    }
    message.len()
}

// What stands at a place, as messages are ordered: a part's first byte is below a STOP, and any other above.
const STOP: u16 = 256;

fn byte_symbol(byte: u8, part: u8) -> u16 {
    let value = byte as u16;
    if part > 0 {
        return value;
    }
    value + STOP + 1
}

fn symbol(message: &[u8], parts: &[u8], place: usize) -> u16 {
    if place >= message.len() {
        return STOP;
    }
    byte_symbol(message[place], byte_at(parts, place))
}

// How many bytes at their fronts two messages have in common, with their parts.
fn common(message: &[u8], parts: &[u8], other: &[u8], other_parts: &[u8]) -> usize {
    let count = message.len();
    (0..count)
        .find(|i| symbol(message, parts, *i) != symbol(other, other_parts, *i))
        .unwrap_or(count)
}

// Where a board's message first differs from another's, by the bytes before; its length where it does not.
pub(crate) fn front(kept: &[u8], load: Load, board: usize, other: usize) -> usize {
    common(
        message(kept, load, board),
        parts(kept, load, board),
        message(kept, load, other),
        parts(kept, load, other),
    )
}

fn symbol_of(kept: &[u8], load: Load, board: usize, place: usize) -> u16 {
    symbol(message(kept, load, board), parts(kept, load, board), place)
}

// A board restarts at a place.
pub(crate) fn restarts(kept: &[u8], load: Load, board: usize, place: usize) -> bool {
    symbol_of(kept, load, board, place) < STOP
}

// A board's message comes after another's: it is greater where they first differ.
fn comes_after(kept: &[u8], load: Load, board: usize, other: usize) -> bool {
    let place = front(kept, load, board, other);
    symbol_of(kept, load, board, place) > symbol_of(kept, load, other, place)
}

// The lesser of two boards, the first of equal ones; a silent one never.
fn lesser(kept: &[u8], load: Load, best: usize, board: usize) -> usize {
    if load.is_silent(board) {
        return best;
    }
    if load.is_silent(best) | comes_after(kept, load, best, board) {
        return board;
    }
    best
}

// The first board with the least message.
pub(crate) fn least(kept: &[u8], load: Load) -> usize {
    (0..load.boards).fold(0, |best, board| lesser(kept, load, best, board))
}

// The lesser of two symbols is an ending, a restart or a STOP, and the other is not the same one.
fn is_ending(symbol: u16, other: u16) -> bool {
    (symbol < other) & (symbol <= STOP) & (other >= STOP)
}

// A board does not do the same as the least one after a byte that the bus comes to, as all before are acknowledged.
fn parts_from(kept: &[u8], load: Load, least: usize, board: usize, acked: usize) -> bool {
    let place = front(kept, load, least, board);
    let ends = is_ending(
        symbol_of(kept, load, least, place),
        symbol_of(kept, load, board, place),
    );
    ends & (place <= acked) & !load.is_silent(board)
}

// The first such board; acked: how many bytes are acknowledged, from the first on.
pub(crate) fn parted_from(kept: &[u8], load: Load, least: usize, acked: usize) -> Option<usize> {
    (0..load.boards).find(|board| parts_from(kept, load, least, *board, acked))
}

// A board ends or restarts where another, whose message is the greater there, does not.
fn ends_first(kept: &[u8], load: Load, board: usize) -> bool {
    !load.is_silent(board) & parted_from(kept, load, board, MAX_LENGTH).is_some()
}

// The first such board.
pub(crate) fn first_ending(kept: &[u8], load: Load) -> Option<usize> {
    (0..load.boards).find(|board| ends_first(kept, load, *board))
}
