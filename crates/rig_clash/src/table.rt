// The table: a row for each load.
use crate::columns::{cut, fit};
use crate::list::Style;
use crate::load::Load;
use crate::outcome::Outcome;
use crate::phrase::{put, put_numbers};
use crate::refusals::Stage;
use crate::{list, refusals};
use rig_lines::console::{PAGE, begin};
use text::{put_byte, put_bytes};
use verdict::Verdict;

// The columns after a load's name, and after its title; those of the winner, and of the verdict.
const NAME: u64 = 12;

const LOAD: usize = 27;

const WINNER: usize = 9;

const VERDICT: usize = 36;

// A load's name and title, after the mark of a load to see.
fn put_load(page: &mut [u8; PAGE], at: usize, kept: &[u8], marked: bool) -> usize {
    let start = begin(page, at);
    let words = if marked { b"! *_[" } else { b"  *_[" };
    let title = put(page, start, kept, words, &[NAME]);
    let fitted = fit(page, start, title, LOAD);
    put_byte(page, fitted, b' ')
}

// The column of two numbers of one or two digits, which stand at the right.
fn ratio_column(count: usize, length: usize) -> usize {
    let before = if count > 9 { 1 } else { 2 };
    let after = if length > 9 { 0 } else { 1 };
    before + after
}

// Who is still in, and how much of the message was carried.
fn put_winner(
    page: &mut [u8; PAGE],
    at: usize,
    kept: &[u8],
    load: Load,
    outcome: Outcome,
) -> usize {
    match outcome.verdict {
        Verdict::Refused(_) | Verdict::Undecided => put_bytes(page, at, b"-             - "),
        _ => {
            let style = if load.named {
                Style::TightNames
            } else {
                Style::TightNumbers
            };
            let who = list::put_all(page, at, kept, style, outcome.others(load));
            let fitted = fit(page, at, who, WINNER);
            let column = ratio_column(outcome.count, outcome.length);
            let numbers = [column as u64, outcome.count as u64, outcome.length as u64];
            put_numbers(page, fitted, b" _#/# ", &numbers)
        }
    }
}

// The words about a load that was not refused and went as expected; unsent: a part of a message was not sent.
fn words_of(verdict: Verdict, acked: bool, unsent: bool) -> &'static [u8] {
    match verdict {
        Verdict::Sent(_) if acked => b"sent",
        Verdict::Sent(_) => b"sent, no ack line",
        Verdict::Cut(_) if unsent => b"???CUT at byte # (%), # not sent",
        Verdict::Cut(_) => b"???CUT at byte # (%), the last",
        _ => b"???UNDECIDED at byte #: ",
    }
}

// Where a message was sent and another was expected, there is no more to say.
fn unexpected(verdict: Verdict, unsent: bool) -> &'static [u8] {
    match verdict {
        Verdict::Sent(_) => b"EXPECTED $ #/#",
        Verdict::Cut(_) if unsent => b"EXPECTED $ #/#, CUT at byte # (%), # not sent",
        Verdict::Cut(_) => b"EXPECTED $ #/#, CUT at byte # (%), the last",
        _ => b"EXPECTED $ #/#, UNDECIDED at byte #: ",
    }
}

// What is expected, where the bus stopped, and how much was not sent.
fn numbers_of(load: Load, outcome: Outcome) -> [u64; 6] {
    [
        load.winner as u64,
        load.carried,
        load.length,
        outcome.count.saturating_sub(1) as u64,
        outcome.last as u64,
        outcome.length.saturating_sub(outcome.count) as u64,
    ]
}

fn put_said(page: &mut [u8; PAGE], at: usize, kept: &[u8], load: Load, outcome: Outcome) -> usize {
    let unsent = outcome.length > outcome.count;
    let words = if outcome.expected {
        words_of(outcome.verdict, load.ack_line.is_some(), unsent)
    } else {
        unexpected(outcome.verdict, unsent)
    };
    put(page, at, kept, words, &numbers_of(load, outcome))
}

fn put_verdict(
    page: &mut [u8; PAGE],
    at: usize,
    kept: &[u8],
    load: Load,
    outcome: Outcome,
) -> usize {
    if let Verdict::Refused(number) = outcome.verdict {
        let word = put_numbers(page, at, b"REFUSED #: ", &[number as u64]);
        return refusals::put_words(page, word, kept, load, number, outcome.place, Stage::Table);
    }
    let said = put_said(page, at, kept, load, outcome);
    if outcome.is_undecided() {
        let style = if load.named {
            Style::Names
        } else {
            Style::Numbers
        };
        return list::put_all(page, said, kept, style, outcome.others(load));
    }
    said
}

// The row of a load that was rehearsed.
pub(crate) fn put_row(
    page: &mut [u8; PAGE],
    at: usize,
    kept: &[u8],
    load: Load,
    outcome: Outcome,
) -> usize {
    let front = put_load(page, at, kept, outcome.is_marked());
    let middle = put_winner(page, front, kept, load, outcome);
    let words = put_verdict(page, middle, kept, load, outcome);
    let end = cut(page, middle, words, VERDICT);
    put_byte(page, end, b'\n')
}

// The row of a load in error.
pub(crate) fn put_broken(page: &mut [u8; PAGE], at: usize, kept: &[u8]) -> usize {
    let front = put_load(page, at, kept, true);
    put_bytes(page, front, b"-             - ERROR: not rehearsed\n")
}
