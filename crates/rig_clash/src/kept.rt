// What is kept of a file, of the load that is being read and of the corrections, in one lent slice of bytes: texts in
// cells that are filled up with zeros, which no text has, and the messages, a row of bytes for each board.
use arbitration_rules::{MAX_LENGTH, MAX_MASTERS};
use load_text::{BOARD_NAME, LOAD_NAME};
use rig_lines::numbers::value;
use text::{put_byte, put_bytes};

// The longest title, and as many bytes as the names of loads to see may take.
pub(crate) const TITLE: usize = 64;

pub(crate) const SEEN: usize = 60;

// The longest number as text.
pub(crate) const NUMBER: usize = 20;

// Room for one acknowledge more than there may be, so that the library sees that they are too many.
pub(crate) const ACKS: usize = MAX_LENGTH + 1;

// Where each begins.
pub(crate) const NAME_AT: usize = 0;

pub(crate) const TITLE_AT: usize = NAME_AT + LOAD_NAME;

pub(crate) const SEEN_AT: usize = TITLE_AT + TITLE;

pub(crate) const ACKS_AT: usize = SEEN_AT + SEEN;

const BOARDS_AT: usize = ACKS_AT + ACKS;

pub(crate) const MESSAGES_AT: usize = BOARDS_AT + MAX_MASTERS * BOARD_NAME;

// The messages of one load, and the corrections of its boards, in rows of their own.
pub(crate) const BYTES: usize = MAX_MASTERS * MAX_LENGTH;

// The parts of the messages, in rows like theirs: the length of a part where it begins, 0 at every other byte.
pub(crate) const PARTS_AT: usize = MESSAGES_AT + BYTES;

pub(crate) const TONIGHT_AT: usize = PARTS_AT + BYTES;

// All corrections, each in a slot.
pub(crate) const SLOTS_AT: usize = TONIGHT_AT + BYTES;

pub(crate) const SLOTS: usize = 256;

// A mark, the load's name and line, the board's name and line, and a message with its length and its parts.
pub(crate) const SLOT: usize = 1 + LOAD_NAME + NUMBER + BOARD_NAME + NUMBER + 1 + 2 * MAX_LENGTH;

// The names of the file's loads, each in a slot with its line.
pub(crate) const NAMES_AT: usize = SLOTS_AT + SLOTS * SLOT;

pub(crate) const NAMES: usize = 8192;

pub(crate) const NAMED: usize = LOAD_NAME + NUMBER;

// The longest word of the command line.
const WORD: usize = 4096;

// The name of the file that is being read, and that of the load whose trace is asked for, as the command line has them.
pub(crate) const FILE_AT: usize = NAMES_AT + NAMES * NAMED;

pub(crate) const ASKED_AT: usize = FILE_AT + WORD;

pub(crate) const ROOM: usize = ASKED_AT + WORD;

// Zeros for the longest cell.
const ZEROS: [u8; TITLE] = [0; TITLE];

// So many bytes from a place on, as far as there are.
pub(crate) fn part(bytes: &[u8], from: usize, count: usize) -> &[u8] {
    let rest = &bytes[from.min(bytes.len())..];
    &rest[..count.min(rest.len())]
}

// The text in a cell: the bytes before the first zero.
pub(crate) fn text_in(kept: &[u8], from: usize, width: usize) -> &[u8] {
    let cell = part(kept, from, width);
    match cell.iter().position(|b| *b == 0) {
        Some(end) => &cell[..end],
        None => cell,
    }
}

// A text put into a cell, as much of it as there is room for.
pub(crate) fn keep(kept: &mut [u8; ROOM], from: usize, width: usize, text: &[u8]) {
    put_bytes(kept, from, part(&ZEROS, 0, width));
    put_bytes(kept, from, part(text, 0, width));
}

// A word of the command line put into a cell, with a zero after it where the cell goes on.
pub(crate) fn keep_word(kept: &mut [u8; ROOM], from: usize, word: &[u8]) {
    let end = put_bytes(kept, from, part(word, 0, WORD));
    if word.len() < WORD {
        put_byte(kept, end, 0);
    }
}

// The name of the file that is being read.
pub(crate) fn file(kept: &[u8]) -> &[u8] {
    text_in(kept, FILE_AT, WORD)
}

// The name of the load whose trace is asked for.
pub(crate) fn asked(kept: &[u8]) -> &[u8] {
    text_in(kept, ASKED_AT, WORD)
}

// The number in a cell.
pub(crate) fn number_in(kept: &[u8], from: usize) -> u64 {
    value(text::decimal(text_in(kept, from, NUMBER)))
}

pub(crate) fn name(kept: &[u8]) -> &[u8] {
    text_in(kept, NAME_AT, LOAD_NAME)
}

pub(crate) fn title(kept: &[u8]) -> &[u8] {
    text_in(kept, TITLE_AT, TITLE)
}

// Where a cell begins, among so many of one width from a place on; the first, where there is none so far on.
pub(crate) fn cell_at(from: usize, width: usize, count: usize, cell: usize) -> usize {
    if cell < count {
        from.saturating_add(cell.saturating_mul(width))
    } else {
        from
    }
}

// Where a board's cell begins.
fn cell_of(board: usize) -> usize {
    cell_at(BOARDS_AT, BOARD_NAME, MAX_MASTERS, board)
}

// Where a board's row begins, among rows that begin at a place.
pub(crate) fn row_of(rows: usize, board: usize) -> usize {
    cell_at(rows, MAX_LENGTH, MAX_MASTERS, board)
}

pub(crate) fn board_name(kept: &[u8], board: usize) -> &[u8] {
    text_in(kept, cell_of(board), BOARD_NAME)
}

pub(crate) fn keep_board_name(kept: &mut [u8; ROOM], board: usize, name: &[u8]) {
    keep(kept, cell_of(board), BOARD_NAME, name);
}

// So many bytes of a row that begins at a place, from one on.
pub(crate) fn row(kept: &[u8], at: usize, from: usize, count: usize) -> &[u8] {
    part(part(kept, at, MAX_LENGTH), from, count)
}

// A row of bytes, put where it begins.
pub(crate) fn put_row(kept: &mut [u8; ROOM], at: usize, row: &[u8; MAX_LENGTH]) {
    put_bytes(kept, at, row);
}

// No board has a name.
pub(crate) fn clear_board_names(kept: &mut [u8; ROOM]) {
    put_bytes(kept, BOARDS_AT, &[0; MAX_MASTERS * BOARD_NAME]);
}
