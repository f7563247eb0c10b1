// The file of tonight's corrections. Whatever is wrong with it, nothing is rehearsed.
use crate::forms::Form;
use crate::kept::{FILE_AT, NAME_AT, ROOM, SLOTS};
use crate::phrase::begin_numbers;
use crate::problem::Reach;
use crate::state::State;
use crate::statements::Statement;
use crate::words::Kind;
use crate::{ending, kept, lines, load, reading, slots, sources, statements, words};
use arbitration_rules::MAX_LENGTH;
use load_text::{LOAD_NAME, is_board_name, is_load_name};
use rig_lines::console::PAGE;
use rig_lines::files::Reader;
use rig_lines::input;
use rig_lines::input::Line;
use std::fs::File;
use std::io::Stdin;
use std::rt::{Env, Files};
use text::{after_word, first_word, put_bytes};

const BYTES: u64 = MAX_LENGTH as u64;

// Says what is wrong with the line that was followed, where something is, or with the file.
fn said(page: &mut [u8; PAGE], state: State) -> State {
    let Some(problem) = state.problem else {
        return state;
    };
    let place = match problem.line {
        Some(line) => begin_numbers(page, state.at, b"! corrections line #: ", &[line]),
        None => begin_numbers(page, state.at, b"! corrections: ", &[]),
    };
    let wrong = problem.put(page, place);
    let end = put_bytes(page, wrong, b"; nothing is rehearsed\n");
    state.moved(end).without_problem().faulted().done()
}

// The load that is read has no board line yet.
fn lacks_board(kept: &[u8], state: State) -> bool {
    let found = slots::find_load(kept, state.corrections, kept::name(kept));
    state.load.open & found.is_none()
}

fn without_board(kept: &[u8], state: State) -> State {
    let line = Some(state.load.line);
    state.with_problem(line, Form::WithoutBoard, kept::name(kept), 0, Reach::Line)
}

// What is wrong with `load NAME`, or with the load before it, where something is: no load before has the name.
fn judged_load(kept: &[u8], state: State, rest: &[u8]) -> State {
    let name = first_word(rest);
    let extra = first_word(after_word(rest));
    if lacks_board(kept, state) {
        return without_board(kept, state);
    }
    if name.len() == 0 {
        return state.wrong_by(Form::NoName, 0);
    }
    if !is_load_name(name) {
        return state.wrong(Form::LoadName, name, 0);
    }
    if extra.len() > 0 {
        return state.wrong(Form::OneWord, extra, 0);
    }
    if let Some(first) = slots::find_load(kept, state.corrections, name) {
        return state.wrong(Form::Taken, name, slots::load_line(kept, first));
    }
    state
}

// `load NAME`
fn with_load(kept: &mut [u8; ROOM], state: State, rest: &[u8]) -> State {
    let mut next = judged_load(kept, state, rest);
    if next.is_wrong() {
        return next;
    }
    kept::keep(kept, NAME_AT, LOAD_NAME, first_word(rest));
    next.file.loads = state.file.loads.saturating_add(1);
    next.load = load::begun(state.source.line, false, 0, 0);
    next
}

// What is wrong with `board NAME HH HH ..` or `board NAME -`, where something is: the board has no line in this load
// yet, and at most so many bytes.
fn judged_board(kept: &[u8], state: State, name: &[u8], bytes: &[u8]) -> State {
    let count = words::count(bytes);
    if !state.load.open {
        return state.wrong(Form::Outside, b"board", 0);
    }
    if state.corrections >= SLOTS {
        return state.wrong_by(Form::ManyCorrections, 0);
    }
    if name.len() == 0 {
        return state.wrong_by(Form::NoBoard, 0);
    }
    if !is_board_name(name) {
        return state.wrong(Form::BoardName, name, 0);
    }
    if let Some(first) = slots::find(kept, state.corrections, name) {
        return state.wrong(Form::SecondBoard, name, slots::line(kept, first));
    }
    let next = lines::judged(state, bytes);
    if next.is_wrong() {
        return next;
    }
    if count == 0 {
        return state.wrong_by(Form::NoBoard, 0);
    }
    if count > BYTES {
        return state.wrong(Form::LongMessage, name, count);
    }
    state
}

// The bytes that a board sends: none, where `-` stands for them.
fn sent(bytes: &[u8]) -> &[u8] {
    if words::is_dash(first_word(bytes)) {
        return after_word(bytes);
    }
    bytes
}

fn with_board(kept: &mut [u8; ROOM], state: State, name: &[u8], bytes: &[u8]) -> State {
    let mut next = judged_board(kept, state, name, bytes);
    if next.is_wrong() {
        return next;
    }
    let mut row = [0u8; MAX_LENGTH];
    let mut parts = [0u8; MAX_LENGTH];
    let correction = state.corrections;
    let length = words::count(sent(bytes)).min(BYTES) as u8;
    words::put_values(&mut row, Kind::Byte, sent(bytes));
    words::put_parts(&mut parts, sent(bytes));
    slots::keep(
        kept,
        correction,
        state.load.line,
        name,
        state.source.line,
        &row,
        &parts,
        length,
    );
    if correction < SLOTS {
        next.corrections = correction + 1;
    }
    next
}

// `end N`
fn with_end(kept: &[u8], state: State, rest: &[u8]) -> State {
    if lacks_board(kept, state) {
        return without_board(kept, state);
    }
    ending::with_end(state, rest, Form::CorrectionsCounted)
}

// A line of text, without its comment.
fn with_text(kept: &mut [u8; ROOM], state: State, line: &[u8]) -> State {
    let word = first_word(line);
    let rest = after_word(line);
    let statement = statements::named(word);
    if word.len() == 0 {
        return state;
    }
    if let Some(end) = state.file.end_line {
        return ending::after_end(state, Form::AfterCorrections, end);
    }
    match statement {
        Statement::Load => with_load(kept, state, rest),
        Statement::End => with_end(kept, state, rest),
        Statement::Board => with_board(kept, state, first_word(rest), after_word(rest)),
        _ => state.wrong(
            if state.load.open {
                Form::InCorrections
            } else {
                Form::Outside
            },
            word,
            0,
        ),
    }
}

// A line that is too long or no text.
fn without_text(state: State, form: Form) -> State {
    if let Some(end) = state.file.end_line {
        return ending::after_end(state, Form::AfterCorrections, end);
    }
    state.wrong_by(form, 0)
}

// The end of the input.
fn ended(kept: &[u8], state: State) -> State {
    if state.file.end_line.is_some() {
        return state.done();
    }
    if lacks_board(kept, state) {
        return without_board(kept, state);
    }
    state.with_problem(None, Form::NoEnd, b"", 0, Reach::Line)
}

// Follows what taking a line found.
fn followed(kept: &mut [u8; ROOM], state: State, found: Line, line: &[u8]) -> State {
    match found {
        Line::Text(n) => with_text(kept, state, input::content(line, n)),
        Line::End => ended(kept, state),
        _ => without_text(state, reading::form_of(found)),
    }
}

// The next line.
pub(crate) fn with_line(
    page: &mut [u8; PAGE],
    kept: &mut [u8; ROOM],
    state: State,
    found: Line,
    line: &[u8],
) -> State {
    if let Line::Failed = found {
        let source = state.source;
        let words = b"! cannot read +: `; nothing is rehearsed";
        return ending::failed(page, kept, state, words, source.argument, source.errno);
    }
    let next = followed(kept, state, found, line);
    said(page, next)
}

// Keeps the corrections of the file that an argument names, where one does.
pub(crate) fn read<R: Env + Files<File = File>>(
    rt: &R,
    stdin: Stdin,
    page: &mut [u8; PAGE],
    kept: &mut [u8; ROOM],
    state: State,
    argument: Option<usize>,
) -> State {
    let Some(argument) = argument else {
        return state;
    };
    let mut reader = Reader::Standard(stdin);
    sources::keep(rt, kept, FILE_AT, argument);
    match sources::open(rt, &mut reader, kept, argument) {
        Ok(source) => reading::run_source(&mut reader, page, kept, state, source, true),
        Err(errno) => {
            let words = b"! cannot open +: `; nothing is rehearsed";
            ending::failed(page, kept, state, words, argument, errno)
        }
    }
}
