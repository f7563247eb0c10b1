// rig_clash, run by `rig clash`: rehearses each load of the files, where boards start to send at once; by `rig night`
// until every message is carried; by `rig draw` to draw one load. The last line of output says how it went: `ok`,
// `look`, `refused` with a number, or `error`.
#![tactic(auto)]

mod arguments; // arguments.rt: the words of the command line
mod block; // block.rt: the block of a load
mod board; // board.rt: a board in the block of a load
mod boards; // boards.rt: the boards of a file, by name
mod cells; // cells.rt: a row of the drawing of a load
mod columns; // columns.rt: columns of text
mod complaints; // complaints.rt: lines about what is wrong
mod corrected; // corrected.rt: tonight's corrections laid over a load
mod corrections; // corrections.rt: the file of tonight's corrections
mod ending; // ending.rt: how a file ends
mod finish; // finish.rt: the end of a load
mod forms; // forms.rt: the words about what is wrong
mod kept; // kept.rt: what is kept of a file and of a load
mod lines; // lines.rt: the statements of a load
mod list; // list.rt: boards in a list
mod load; // load.rt: a load
mod names; // names.rt: the names of a file's loads
mod nights; // nights.rt: what the night of a load comes to
mod opening; // opening.rt: the statement that begins a load
mod order; // order.rt: which boards a refusal is about
mod outcome; // outcome.rt: what a rehearsal comes to
mod phrase; // phrase.rt: words with marks
mod problem; // problem.rt: what is wrong with a line
mod reading; // reading.rt: a file, line by line
mod recording; // recording.rt: the levels of a load as a trace
mod refusals; // refusals.rt: refusals in words
mod registers; // registers.rt: the registers of a board
mod request; // request.rt: what the library is asked
mod rounds; // rounds.rt: the block of a load in a night
mod rows; // rows.rt: the rows of a waveform
mod seen; // seen.rt: the names of the loads to see
mod slots; // slots.rt: the corrections as they are kept
mod sources; // sources.rt: the words that name a file or a load
mod state; // state.rt: what is known while the files are read
mod statements; // statements.rt: the statements of a file
mod svg; // svg.rt: the drawing of a load
mod table; // table.rt: the table
mod tally; // tally.rt: how the loads went, and the last two lines
mod wave; // wave.rt: what the bus carried
mod words; // words.rt: the bytes and the acknowledges of a line

use crate::phrase::line_numbers;
use arguments::{Arguments, next_file};
use forms::Form;
use kept::{ASKED_AT, FILE_AT, ROOM};
use phrase::put_line;
use problem::Problem;
use rig_lines::arguments::count;
use rig_lines::console::{PAGE, flush};
use rig_lines::files::Reader;
use state::{Options, State};
use std::fs::File;
use std::io::Stdin;
use std::rt::{Env, Files};
use text::{put_byte, put_bytes};

// `file FILE`, where there are several and no trace is asked for. The names of loads and boards are each file's own.
fn with_file<R: Env + Files<File = File>>(
    rt: &R,
    stdin: Stdin,
    page: &mut [u8; PAGE],
    kept: &mut [u8; ROOM],
    state: State,
    argument: usize,
    several: bool,
) -> State {
    names::clear(kept);
    kept::clear_board_names(kept);
    sources::keep(rt, kept, FILE_AT, argument);
    let named = several & !state.options.trace;
    let next = state.moved(put_line(page, state.at, kept, named, b"file +", &[argument as u64]));
    let mut reader = Reader::Standard(stdin);
    match sources::open(rt, &mut reader, kept, argument) {
        Ok(source) => reading::run_source(&mut reader, page, kept, next, source, false),
        Err(errno) => ending::failed(page, kept, next, b"! cannot open +: `", argument, errno),
    }
}

// There are no more files than arguments.
fn run_files<R: Env + Files<File = File>>(
    rt: &R,
    stdin: Stdin,
    page: &mut [u8; PAGE],
    kept: &mut [u8; ROOM],
    begun: State,
    first: usize,
) -> State {
    let several = next_file(rt, first.saturating_add(1)).is_some();
    let mut state = begun;
    let mut next = Some(first);
    for _ in 0..count(rt) {
        let Some(argument) = next else {
            return state;
        };
        state = with_file(rt, stdin, page, kept, state, argument, several);
        next = next_file(rt, argument.saturating_add(1));
    }
    state
}

// The last two lines; a trace has no line but its samples and the last one.
fn summed(page: &mut [u8; PAGE], kept: &[u8; ROOM], state: State) {
    let seen = tally::put_seen(page, state.at, kept, state.tally, !state.options.trace);
    let last = tally::put_last(page, seen, state.tally);
    flush(page, last);
}

// The load whose trace is asked for is there.
fn met(page: &mut [u8; PAGE], kept: &[u8], state: State) -> State {
    if !state.options.trace | (state.tally.loads > 0) {
        return state;
    }
    complaints::fault(page, state, Form::UnknownLoad, kept::asked(kept))
}

// All files, or the one that has the load that is drawn: the word after it is no file.
fn run_all<R: Env + Files<File = File>>(
    rt: &R,
    stdin: Stdin,
    page: &mut [u8; PAGE],
    kept: &mut [u8; ROOM],
    state: State,
) -> State {
    let Some(first) = next_file(rt, 2) else {
        return state;
    };
    if state.options.draws {
        return with_file(rt, stdin, page, kept, state, first, false);
    }
    run_files(rt, stdin, page, kept, state, first)
}

// All files, and then the corrections that are for none of their loads. No file of loads is read where the corrections
// are at fault.
fn run_loads<R: Env + Files<File = File>>(
    rt: &R,
    stdin: Stdin,
    page: &mut [u8; PAGE],
    kept: &mut [u8; ROOM],
    state: State,
) -> State {
    if state.tally.has_fault() {
        return state;
    }
    let done = run_all(rt, stdin, page, kept, state);
    let read = corrected::unmet(page, kept, done, done.corrections);
    met(page, kept, read)
}

fn options_of(given: Arguments) -> Options {
    Options {
        table: given.table,
        registers: given.registers,
        wave: given.wave | given.draws(),
        room: given.room,
        trace: given.trace.is_some(),
        night: given.nights(),
        draws: given.draws(),
        svg: given.svg,
    }
}

// In a table the header stands first.
fn run<R: Env + Files<File = File>>(rt: &R, stdin: Stdin, given: Arguments) {
    let mut page = [0u8; PAGE];
    let mut kept = [0u8; ROOM];
    if let Some(argument) = given.trace {
        sources::keep(rt, &mut kept, ASKED_AT, argument);
    }
    let header = b"  load       title          winner    bytes verdict";
    let at = line_numbers(&mut page, 0, given.table, header, &[]);
    let begun = state::begun(options_of(given)).moved(at);
    let read = corrections::read(rt, stdin, &mut page, &mut kept, begun, given.corrections);
    let state = run_loads(rt, stdin, &mut page, &mut kept, read);
    summed(&mut page, &kept, state);
}

// `error`, and what is wrong with the arguments.
fn refuse(page: &mut [u8; PAGE], problem: Problem) {
    let word = put_bytes(page, 0, b"error ");
    let words = problem.put(page, word);
    let end = put_byte(page, words, b'\n');
    flush(page, end);
}

fn main(rt: HostRuntime) {
    let mut page = [0u8; PAGE];
    match arguments::parse(&rt) {
        Ok(given) => run(&rt, rt.stdin(), given),
        Err(problem) => refuse(&mut page, problem),
    }
}
