// The registers of a board at the end of a rehearsal, with the flags that are 1 by their names, and the flags that its
// writes cleared.
use crate::board::{message_column, number_column};
use crate::load::Load;
use crate::outcome::Outcome;
use crate::phrase::{put_front, put_numbers};
use rig_lines::console::PAGE;
use rig_lines::lists::line_of;
use text::{put_byte, put_bytes};
use usi::Usi;

// How many bits a register has.
const BITS: usize = 8;

fn put_flag(page: &mut [u8; PAGE], at: usize, is_set: bool, name: &[u8]) -> usize {
    if !is_set {
        return at;
    }
    let space = put_byte(page, at, b' ');
    put_bytes(page, space, name)
}

// The names of the bits that are 1, from bit 7 down; each stands in a line of its own.
fn put_flags(page: &mut [u8; PAGE], at: usize, bits: u8, names: &[u8]) -> usize {
    let mut next = at;
    for place in 0..BITS {
        let is_set = (bits >> (BITS - 1 - place)) % 2 == 1;
        next = put_flag(page, next, is_set, line_of(names, place));
    }
    next
}

// A register by its words and their numbers; bits: those that have names, from bit 7 down.
fn put_register(
    page: &mut [u8; PAGE],
    at: usize,
    words: &[u8],
    numbers: &[u64],
    bits: u8,
    names: &[u8],
) -> usize {
    let word = put_numbers(page, at, words, numbers);
    put_flags(page, word, bits, names)
}

fn put_control(page: &mut [u8; PAGE], at: usize, usi: Usi) -> usize {
    let ports = b"PE7\nPE6\nPE5\nLSB\nMST\nGE\nOE\nSWRST";
    let flags = b"CKPH\nI2C\nSTTIE\nIIE\nAL\nSTP\nSTTIFG\nIFG";
    let (first, second) = (usi.usictl0, usi.usictl1);
    let next = put_register(page, at, b"USICTL0=%", &[first as u64], first, ports);
    put_register(page, next, b", USICTL1=%", &[second as u64], second, flags)
}

fn put_clock(page: &mut [u8; PAGE], at: usize, clock: u8) -> usize {
    let words = b", USICKCTL=% DIV=# SSEL=#";
    let numbers = [clock as u64, (clock / 32) as u64, (clock / 4 % 8) as u64];
    put_register(page, at, words, &numbers, clock % 4 * 64, b"CKPL\nSWCLK")
}

fn put_count(page: &mut [u8; PAGE], at: usize, count: u8) -> usize {
    let names = b"SCLREL\n16B\nIFGCC";
    let next = put_register(
        page,
        at,
        b", USICNT=%",
        &[count as u64],
        count / 32 * 32,
        names,
    );
    put_numbers(page, next, b" CNT=#", &[(count % 32) as u64])
}

// All registers of a board, and the flags that its writes cleared.
fn put_registers(page: &mut [u8; PAGE], at: usize, usi: Usi, cleared: u8) -> usize {
    let control = put_control(page, at, usi);
    let clock = put_clock(page, control, usi.usickctl);
    let count = put_count(page, clock, usi.usicnt);
    let words = b", USISRL=%, USISRH=%, cleared";
    let numbers = [usi.usisrl as u64, usi.usisrh as u64];
    let flags = b"AL\nSTP\nSTTIFG\nIFG";
    put_register(page, count, words, &numbers, cleared % 16 * 16, flags)
}

fn put_board(
    page: &mut [u8; PAGE],
    at: usize,
    kept: &[u8],
    load: Load,
    outcome: Outcome,
    board: usize,
) -> usize {
    if load.is_silent(board) {
        return at;
    }
    let seat = outcome.seat_of(load, board);
    let numbers = [
        number_column(load, board),
        board as u64,
        message_column(load) as u64,
    ];
    let start = put_front(page, at, kept, b"  regs   _@_", &numbers);
    let registers = put_registers(page, start, outcome.module_of(load, board), seat.cleared);
    put_byte(page, registers, b'\n')
}

// A line for each of so many boards that is not silent.
pub(crate) fn put_all(
    page: &mut [u8; PAGE],
    at: usize,
    kept: &[u8],
    load: Load,
    outcome: Outcome,
    boards: usize,
) -> usize {
    let mut next = at;
    for board in 0..boards {
        next = put_board(page, next, kept, load, outcome, board);
    }
    next
}
