// rig dump: a trace drawn as a Value Change Dump, gathered in a buffer of 4,096 bytes before each write.
use crate::decoding::refuse;
use crate::lines::say_numbers;
use rig_lines::console::{PAGE, flush};

const GATHERED: usize = 4096;

// More pieces than the longest text has, which is one of 73,855 bytes.
const PIECES: u8 = 32;

// The text refused for its length alone is given in pieces.
const SHORT: u8 = 8;

// Writes the text from a byte on, as much as is gathered; answers how many bytes those are.
fn write_piece(stamps: &[u32], levels: &[u8], from: usize) -> usize {
    let mut gathered = [0u8; GATHERED];
    let n = dump::piece(stamps, levels, from, &mut gathered);
    flush(&gathered, n);
    n
}

// Writes the text, piece by piece; answers how many bytes it has.
fn write(stamps: &[u32], levels: &[u8]) -> usize {
    let mut from: usize = 0;
    for _ in 0..PIECES {
        from = from.saturating_add(write_piece(stamps, levels, from));
    }
    from
}

// No room is lent, so a trace that can be drawn is refused with 8.
pub(crate) fn answer(
    page: &mut [u8; PAGE],
    unpaired: u64,
    stamps: &[u32],
    levels: &[u8],
    lines: &[u64],
) -> usize {
    let mut none = [0u8; 1];
    match dump::dump(stamps, levels, &mut none) {
        Err(refusal) if refusal.number == SHORT => {
            let numbers = [write(stamps, levels) as u64, levels.len() as u64];
            say_numbers(page, 0, b"ok # byte~ for # sample~", &numbers)
        }
        Err(refusal) => refuse(page, refusal, unpaired, stamps, lines),
        Ok(_) => 0,
    }
}
