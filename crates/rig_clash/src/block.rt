// The block of a load: who won, who lost where, and what else is asked for.
use crate::list::Style;
use crate::load::Load;
use crate::outcome::Outcome;
use crate::phrase::{put_front, put_line, put_numbers};
use crate::refusals::Stage;
use crate::state::Options;
use crate::{board, corrected, list, refusals, registers, wave};
use rig_lines::console::PAGE;
use verdict::Verdict;

// `load NAME TITLE`, and which boards are corrected.
pub(crate) fn put_header(page: &mut [u8; PAGE], at: usize, kept: &[u8], load: Load) -> usize {
    let title = put_line(page, at, kept, true, b"load *[", &[]);
    corrected::put(page, title, kept, load)
}

// Who would have had to differ by the byte that was not acknowledged.
fn put_undecided(
    page: &mut [u8; PAGE],
    at: usize,
    kept: &[u8],
    load: Load,
    outcome: Outcome,
) -> usize {
    if !outcome.is_undecided() {
        return at;
    }
    let word = put_front(page, at, kept, b"  UNDECIDED between ", &[]);
    let who = list::put_all(page, word, kept, Style::Numbers, outcome.others(load));
    let form = b": the bus stopped after byte # (%), before they differ; nothing was sent whole\n";
    put_numbers(
        page,
        who,
        form,
        &[outcome.count.saturating_sub(1) as u64, outcome.last as u64],
    )
}

// The silent boards of a load that was not refused, and the notes about it.
pub(crate) fn put_notes(
    page: &mut [u8; PAGE],
    at: usize,
    kept: &[u8],
    load: Load,
    expected: bool,
) -> usize {
    let silent = board::put_silent(page, at, kept, load);
    let note = b"  note: no ack line, rehearsed as all acknowledged";
    let unacked = put_line(page, silent, kept, load.ack_line.is_none(), note, &[]);
    let numbers = [
        load.expect_line.unwrap_or(0),
        load.winner as u64,
        load.carried,
        load.length,
    ];
    put_line(
        page,
        unacked,
        kept,
        !expected,
        b"  NOT AS EXPECTED: line # expects $ #/#",
        &numbers,
    )
}

// The boards of a load that was not refused, and the notes about it.
fn put_outcome(
    page: &mut [u8; PAGE],
    at: usize,
    kept: &[u8],
    load: Load,
    outcome: Outcome,
) -> usize {
    let undecided = put_undecided(page, at, kept, load, outcome);
    let within = board::put_contenders(page, undecided, kept, load, outcome);
    let lost = board::put_losers(page, within, kept, load, outcome);
    put_notes(page, lost, kept, load, outcome.expected)
}

// The block of a load that was rehearsed.
pub(crate) fn put(
    page: &mut [u8; PAGE],
    at: usize,
    kept: &[u8],
    load: Load,
    outcome: Outcome,
    options: Options,
    carried: &[u8],
    levels: &[u8],
) -> usize {
    let header = put_header(page, at, kept, load);
    if let Verdict::Refused(number) = outcome.verdict {
        return refusals::put_line(
            page,
            header,
            kept,
            load,
            number,
            outcome.place,
            Stage::Block,
        );
    }
    let shown = put_outcome(page, header, kept, load, outcome);
    let boards = if options.registers { load.boards } else { 0 };
    let next = registers::put_all(page, shown, kept, load, outcome, boards);
    if options.wave {
        return wave::put(page, next, kept, load, outcome, carried, levels);
    }
    next
}
