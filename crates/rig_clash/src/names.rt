// The names of a file's loads, each with the line that took it: slots that are found by a number made of the name.
use crate::kept::{NAMED, NAMES, NAMES_AT, ROOM, cell_at, keep, number_in, text_in};
use load_text::LOAD_NAME;
use text::{put_byte, put_decimal};

// Half as many as there are slots, so that a free one is near.
pub(crate) const LOADS: u64 = 4096;

const PRIME: u64 = 4294967291;

fn mixed(number: u64, b: u8) -> u64 {
    (number % PRIME * 1000003 + (b as u64)) % PRIME
}

// The slot at which to look first.
fn slot_of(name: &[u8]) -> usize {
    let number: u64 = name.iter().fold(0, |number, b| mixed(number, *b));
    number as usize % NAMES
}

fn after(slot: usize) -> usize {
    if slot < NAMES - 1 { slot + 1 } else { 0 }
}

// Where the name of a slot is kept, and its line.
fn cell_of(slot: usize) -> usize {
    cell_at(NAMES_AT, NAMED, NAMES, slot)
}

fn line_of(slot: usize) -> usize {
    cell_of(slot).saturating_add(LOAD_NAME)
}

fn is_free(kept: &[u8], slot: usize) -> bool {
    text_in(kept, cell_of(slot), LOAD_NAME).len() == 0
}

// The slot is free, or has this name.
fn suits(kept: &[u8], slot: usize, name: &[u8]) -> bool {
    is_free(kept, slot) | (text_in(kept, cell_of(slot), LOAD_NAME) == name)
}

fn find(kept: &[u8], name: &[u8]) -> usize {
    let mut slot = slot_of(name);
    for _ in 0..NAMES {
        if suits(kept, slot, name) {
            return slot;
        }
        slot = after(slot);
    }
    slot
}

// Takes a name for the load of a line, where it is free; else answers the line that took it.
pub(crate) fn take(kept: &mut [u8; ROOM], name: &[u8], line: u64) -> Option<u64> {
    let slot = find(kept, name);
    if !is_free(kept, slot) {
        return Some(number_in(kept, line_of(slot)));
    }
    keep(kept, cell_of(slot), NAMED, name);
    put_decimal(kept, line_of(slot), line);
    None
}

// Every name is free.
pub(crate) fn clear(kept: &mut [u8; ROOM]) {
    for slot in 0..NAMES {
        put_byte(kept, cell_of(slot), 0);
    }
}
