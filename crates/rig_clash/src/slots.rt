// The corrections as they are kept, each in a slot: a mark once its load was met, the load's name and line, the
// board's name and line, its message and where its parts begin. Lines are kept as text.
use crate::kept;
use crate::kept::{NUMBER, ROOM, SLOT, SLOTS, SLOTS_AT};
use crate::order::byte_at;
use arbitration_rules::MAX_LENGTH;
use load_text::{BOARD_NAME, LOAD_NAME};
use text::{put_byte, put_bytes, put_decimal};

// Where each stands in a slot; the mark is first, and the end of a slot is where the next begins.
const LOAD_AT: usize = 1;

const LOAD_LINE_AT: usize = LOAD_AT + LOAD_NAME;

const BOARD_AT: usize = LOAD_LINE_AT + NUMBER;

const LINE_AT: usize = BOARD_AT + BOARD_NAME;

const LENGTH_AT: usize = LINE_AT + NUMBER;

const BYTES_AT: usize = LENGTH_AT + 1;

const PARTS_AT: usize = BYTES_AT + MAX_LENGTH;

const MET: u8 = b'+';

fn slot_of(correction: usize) -> usize {
    kept::cell_at(SLOTS_AT, SLOT, SLOTS, correction)
}

fn slot(kept: &[u8], correction: usize) -> &[u8] {
    kept::part(kept, slot_of(correction), SLOT)
}

pub(crate) fn load(kept: &[u8], correction: usize) -> &[u8] {
    kept::text_in(slot(kept, correction), LOAD_AT, LOAD_NAME)
}

pub(crate) fn board(kept: &[u8], correction: usize) -> &[u8] {
    kept::text_in(slot(kept, correction), BOARD_AT, BOARD_NAME)
}

// The line of its `load`, and its own.
pub(crate) fn load_line(kept: &[u8], correction: usize) -> u64 {
    kept::number_in(slot(kept, correction), LOAD_LINE_AT)
}

pub(crate) fn line(kept: &[u8], correction: usize) -> u64 {
    kept::number_in(slot(kept, correction), LINE_AT)
}

pub(crate) fn length(kept: &[u8], correction: usize) -> u8 {
    byte_at(slot(kept, correction), LENGTH_AT)
}

pub(crate) fn message(kept: &[u8], correction: usize) -> &[u8] {
    let count = length(kept, correction) as usize;
    kept::part(slot(kept, correction), BYTES_AT, count)
}

pub(crate) fn parts(kept: &[u8], correction: usize) -> &[u8] {
    kept::part(slot(kept, correction), PARTS_AT, MAX_LENGTH)
}

// Whether its load was met in a file.
pub(crate) fn is_met(kept: &[u8], correction: usize) -> bool {
    byte_at(slot(kept, correction), 0) == MET
}

// It is for the load whose name is kept.
pub(crate) fn is_current(kept: &[u8], correction: usize) -> bool {
    load(kept, correction) == kept::name(kept)
}

// A correction for the load whose name is kept was met.
pub(crate) fn meet(kept: &mut [u8; ROOM], correction: usize) {
    if is_current(kept, correction) {
        put_byte(kept, slot_of(correction), MET);
    }
}

// The first of so many corrections that is for a load.
pub(crate) fn find_load(kept: &[u8], count: usize, name: &[u8]) -> Option<usize> {
    (0..count).find(|correction| load(kept, *correction) == name)
}

fn is_for(kept: &[u8], correction: usize, board_name: &[u8]) -> bool {
    is_current(kept, correction) & (board(kept, correction) == board_name)
}

// The one that is for a board of the load whose name is kept.
pub(crate) fn find(kept: &[u8], count: usize, board_name: &[u8]) -> Option<usize> {
    (0..count).find(|correction| is_for(kept, *correction, board_name))
}

// Keeps the correction of a board of the load whose name is kept; row: its bytes, so many; parts: where they begin.
pub(crate) fn keep(
    kept: &mut [u8; ROOM],
    correction: usize,
    load_line: u64,
    board_name: &[u8],
    line: u64,
    row: &[u8; MAX_LENGTH],
    parts: &[u8; MAX_LENGTH],
    length: u8,
) {
    let mut slot = [0u8; SLOT];
    put_bytes(&mut slot, LOAD_AT, kept::name(kept));
    put_decimal(&mut slot, LOAD_LINE_AT, load_line);
    put_bytes(&mut slot, BOARD_AT, board_name);
    put_decimal(&mut slot, LINE_AT, line);
    put_byte(&mut slot, LENGTH_AT, length);
    put_bytes(&mut slot, BYTES_AT, row);
    put_bytes(&mut slot, PARTS_AT, parts);
    put_bytes(kept, slot_of(correction), &slot);
}
