// The end of a load: what is missing, the rehearsal, and what is shown and counted of it.
use crate::kept::ROOM;
use crate::load::Load;
use crate::outcome::{LEVELS, Outcome, is_refusal, is_seen};
use crate::phrase::{put_line, put_note};
use crate::state::{Options, State};
use crate::{block, corrected, nights, outcome, recording, rounds, svg, table};
use arbitration_rules::MAX_LENGTH;
use rig_lines::console::PAGE;
use verdict::Verdict;

// A line on standard error after so many loads.
const PROGRESS: u64 = 100;

// A board that has no line.
fn missing_board(page: &mut [u8; PAGE], kept: &[u8], state: State, board: usize) -> State {
    if state.load.line_of(board).is_some() {
        return state;
    }
    let form = b"! line #: load *: no line for board $ (boards: line #)";
    let numbers = [state.load.line, board as u64, state.file.boards_line];
    let end = put_line(page, state.at, kept, true, form, &numbers);
    state.moved(end).blamed()
}

fn missing_boards(page: &mut [u8; PAGE], kept: &[u8], begun: State, boards: usize) -> State {
    let mut state = begun;
    for board in 0..boards {
        state = missing_board(page, kept, state, board);
    }
    state
}

// With boards each has a line in a load, unless the load is in error already.
pub(crate) fn missing(page: &mut [u8; PAGE], kept: &[u8], state: State) -> State {
    if !state.load.open | state.load.broken | !state.load.named {
        return state;
    }
    missing_boards(page, kept, state, state.load.boards)
}

// A load to see is kept for the last line but one.
fn noted(kept: &mut [u8; ROOM], state: State, marked: bool) -> State {
    if !marked {
        return state;
    }
    state.with_tally(state.tally.with_seen(kept))
}

// A load in error is not rehearsed.
fn unrehearsed(page: &mut [u8; PAGE], kept: &mut [u8; ROOM], state: State) -> State {
    let next = state.with_tally(state.tally.with_broken());
    let at = put_broken(page, state.at, kept, state.options.table);
    noted(kept, next.moved(at), true)
}

fn put_broken(page: &mut [u8; PAGE], at: usize, kept: &[u8], table: bool) -> usize {
    if table {
        return table::put_broken(page, at, kept);
    }
    put_line(
        page,
        at,
        kept,
        true,
        b"load *[\n  ERROR: not rehearsed",
        &[],
    )
}

// What a load came to is counted, and its name kept where it is one to see.
fn tallied(kept: &mut [u8; ROOM], state: State, verdict: Verdict, expected: bool) -> State {
    let unacked = state.load.ack_line.is_none() & !is_refusal(verdict);
    let tally = state.tally.with_verdict(verdict, expected);
    let counted = tally.with_notes(unacked, state.load.corrected);
    noted(kept, state.with_tally(counted), is_seen(verdict, expected))
}

// What is asked for of a load: its drawing, its trace, its row of the table or its block.
fn put(
    page: &mut [u8; PAGE],
    at: usize,
    kept: &[u8],
    load: Load,
    outcome: Outcome,
    options: Options,
    carried: &[u8],
    levels: &[u8],
) -> usize {
    if options.svg {
        return svg::put(page, at, kept, load, outcome, carried, levels);
    }
    if options.trace & !options.draws {
        return recording::put(page, at, levels, outcome);
    }
    if options.table {
        return table::put_row(page, at, kept, load, outcome);
    }
    block::put(page, at, kept, load, outcome, options, carried, levels)
}

fn rehearsed(page: &mut [u8; PAGE], kept: &mut [u8; ROOM], state: State) -> State {
    let mut carried = [0u8; MAX_LENGTH];
    let mut levels = [0u8; LEVELS];
    let outcome = outcome::of(
        kept,
        state.load,
        state.options.room,
        &mut carried,
        &mut levels,
    );
    let at = put(
        page,
        state.at,
        kept,
        state.load,
        outcome,
        state.options,
        &carried,
        &levels,
    );
    tallied(kept, state.moved(at), outcome.verdict, outcome.expected)
}

// The same as a night.
fn rehearsed_night(page: &mut [u8; PAGE], kept: &mut [u8; ROOM], state: State) -> State {
    let night = nights::of(kept, state.load);
    let expected = night.is_expected(state.load);
    let at = rounds::put(page, state.at, kept, state.load, night, expected);
    tallied(kept, state.moved(at), night.verdict, expected)
}

// A note of how many loads there were, where no trace is asked for.
fn progress(page: &mut [u8; PAGE], state: State) -> State {
    if state.options.trace | (state.tally.loads % PROGRESS != 0) {
        return state;
    }
    state.moved(put_note(page, state.at, b"", b"rig: # load~\n", &[state.tally.loads]))
}

// What is done with a load: where a trace or a drawing is asked for, other loads are only read.
#[derive(Clone, Copy)]
enum Course {
    Night,
    Rehearsed,
    Unrehearsed,
    Counted,
    Read,
}

// A load in error has its block, unless it is to be a trace or an SVG document.
fn course_of(kept: &[u8], state: State) -> Course {
    let shown = !state.options.trace | state.options.draws;
    let asked = !state.options.trace | recording::is_asked(kept);
    if state.load.broken & asked & shown & !state.options.svg {
        return Course::Unrehearsed;
    }
    if state.load.broken {
        return Course::Counted;
    }
    if !asked {
        return Course::Read;
    }
    if state.options.night {
        return Course::Night;
    }
    Course::Rehearsed
}

fn finished(page: &mut [u8; PAGE], kept: &mut [u8; ROOM], state: State) -> State {
    match course_of(kept, state) {
        Course::Night => rehearsed_night(page, kept, state),
        Course::Rehearsed => rehearsed(page, kept, state),
        Course::Unrehearsed => unrehearsed(page, kept, state),
        Course::Counted => state.with_tally(state.tally.with_broken()),
        Course::Read => state.with_tally(state.tally.without_load()),
    }
}

// Finishes the load that is being read, where there is one: with its corrections, whatever is asked for of it.
pub(crate) fn finish(page: &mut [u8; PAGE], kept: &mut [u8; ROOM], state: State) -> State {
    if !state.load.open {
        return state;
    }
    let checked = missing(page, kept, state);
    let laid = corrected::laid(page, kept, checked);
    let mut done = finished(page, kept, laid);
    done.load.open = false;
    progress(page, done)
}
