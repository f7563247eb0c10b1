// A board in the block of a load: who it is, what it sends and what became of it.
use crate::load::Load;
use crate::outcome::Outcome;
use crate::phrase::put_line;
use rig_lines::console::PAGE;
use verdict::Verdict;

// The columns before a board's number, and those of a message.
const FRONT: usize = 9;

pub(crate) const MESSAGE: usize = 23;

// So many boards have numbers of one digit.
const ONE_DIGIT: usize = 10;

// The bits on the bus for each byte: eight, and the acknowledge.
const BITS: u16 = 9;

// The column of a board's number, at the right of two where the load has numbers of two digits.
pub(crate) fn number_column(load: Load, board: usize) -> u64 {
    if (load.boards > ONE_DIGIT) & (board < ONE_DIGIT) {
        return FRONT as u64 + 1;
    }
    FRONT as u64
}

// The column after a board's number, its name and two spaces.
pub(crate) fn message_column(load: Load) -> usize {
    let number = if load.boards > ONE_DIGIT {
        FRONT + 2
    } else {
        FRONT + 1
    };
    let spaces = if load.named { 3 } else { 2 };
    load.widest.saturating_add(number + spaces)
}

// The words about a board that is still in; unsent: a part of its message was not sent.
fn words_of(verdict: Verdict, unsent: bool) -> &'static [u8] {
    match verdict {
        Verdict::Sent(_) => b"  WON    _@_&_  sent # of # byte~",
        Verdict::Cut(_) if unsent => {
            b"  WON    _@_&_  CUT after # of # byte~: byte # (%) not acknowledged; & not sent"
        }
        Verdict::Cut(_) => b"  WON    _@_&_  CUT after # of # byte~: byte # (%) not acknowledged",
        _ => b"  in     _@_&_  # of # byte~ carried",
    }
}

fn put_contender(
    page: &mut [u8; PAGE],
    at: usize,
    kept: &[u8],
    load: Load,
    outcome: Outcome,
    board: usize,
) -> usize {
    let length = load.length_of(board) as usize;
    let words = words_of(outcome.verdict, outcome.count < length);
    let carried = match outcome.verdict {
        Verdict::Sent(_) => length,
        _ => outcome.count,
    };
    let start = message_column(load);
    let numbers = [
        number_column(load, board),
        board as u64,
        start as u64,
        board as u64,
        0,
        length as u64,
        start.saturating_add(MESSAGE) as u64,
        carried as u64,
        length as u64,
        outcome.count.saturating_sub(1) as u64,
        outcome.last as u64,
        board as u64,
        outcome.count as u64,
        length as u64,
    ];
    let contends = outcome.contends(load, board);
    put_line(page, at, kept, contends, words, &numbers)
}

fn put_loser(
    page: &mut [u8; PAGE],
    at: usize,
    kept: &[u8],
    load: Load,
    outcome: Outcome,
    board: usize,
) -> usize {
    let seat = outcome.seat_of(load, board);
    let lost = !seat.contending & !load.is_silent(board);
    let length = load.length_of(board) as u64;
    let words = b"  lost   _@_&_  byte # bit #: sends 1, the bus is 0; # byte~ still to send";
    let start = message_column(load);
    let numbers = [
        number_column(load, board),
        board as u64,
        start as u64,
        board as u64,
        0,
        length,
        start.saturating_add(MESSAGE) as u64,
        (seat.position / BITS) as u64,
        (seat.position % BITS) as u64,
        length,
    ];
    put_line(page, at, kept, lost, words, &numbers)
}

// The lines of the boards that are still in, which stand first.
pub(crate) fn put_contenders(
    page: &mut [u8; PAGE],
    at: usize,
    kept: &[u8],
    load: Load,
    outcome: Outcome,
) -> usize {
    let mut next = at;
    for board in 0..load.boards {
        next = put_contender(page, next, kept, load, outcome, board);
    }
    next
}

// The lines of the losers.
pub(crate) fn put_losers(
    page: &mut [u8; PAGE],
    at: usize,
    kept: &[u8],
    load: Load,
    outcome: Outcome,
) -> usize {
    let mut next = at;
    for board in 0..load.boards {
        next = put_loser(page, next, kept, load, outcome, board);
    }
    next
}

// A board's line, where it is silent.
fn put_if_silent(page: &mut [u8; PAGE], at: usize, kept: &[u8], load: Load, board: usize) -> usize {
    let numbers = [number_column(load, board), board as u64];
    put_line(
        page,
        at,
        kept,
        load.is_silent(board),
        b"  silent _@",
        &numbers,
    )
}

// The lines of the silent boards.
pub(crate) fn put_silent(page: &mut [u8; PAGE], at: usize, kept: &[u8], load: Load) -> usize {
    let mut next = at;
    for board in 0..load.boards {
        next = put_if_silent(page, next, kept, load, board);
    }
    next
}
