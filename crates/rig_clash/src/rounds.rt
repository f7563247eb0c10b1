// The block of a load in a night: a line for each round.
use crate::board::MESSAGE;
use crate::list::Style;
use crate::load::Load;
use crate::nights::Night;
use crate::phrase::put_front;
use crate::refusals::Stage;
use crate::{block, list, refusals};
use arbitration_rules::MAX_MASTERS;
use rig_lines::console::PAGE;
use text::put_byte;
use verdict::Verdict;

// The columns before a round's number.
const NUMBER: usize = 8;

// So many rounds have numbers of one digit.
const ONE_DIGIT: usize = 9;

// A round, its number at the right of two columns where a load has numbers of two digits.
fn put_round(
    page: &mut [u8; PAGE],
    at: usize,
    kept: &[u8],
    load: Load,
    night: Night,
    round: usize,
) -> usize {
    let others = night.others(load, round);
    let first = others.iter().position(|other| !*other);
    let board = first.unwrap_or(MAX_MASTERS);
    let wide = (night.count > ONE_DIGIT) as usize;
    let column = if round > ONE_DIGIT {
        NUMBER
    } else {
        NUMBER + wide
    };
    let numbers = [
        column as u64,
        round as u64,
        board as u64,
        0,
        load.length_of(board) as u64,
        (NUMBER + 3 + MESSAGE + wide) as u64,
    ];
    let by = put_front(page, at, kept, b"  round _#  &_  sent by ", &numbers);
    let end = list::put_all(page, by, kept, Style::Both, others);
    put_byte(page, end, b'\n')
}

fn put_rounds(page: &mut [u8; PAGE], at: usize, kept: &[u8], load: Load, night: Night) -> usize {
    let mut next = at;
    for round in 1..=night.count {
        next = put_round(page, next, kept, load, night, round);
    }
    next
}

// The block of a load whose night was rehearsed.
pub(crate) fn put(
    page: &mut [u8; PAGE],
    at: usize,
    kept: &[u8],
    load: Load,
    night: Night,
    expected: bool,
) -> usize {
    let header = block::put_header(page, at, kept, load);
    if let Verdict::Refused(number) = night.verdict {
        return refusals::put_line(page, header, kept, load, number, night.place, Stage::Night);
    }
    let rounds = put_rounds(page, header, kept, load, night);
    block::put_notes(page, rounds, kept, load, expected)
}
