// A file of loads, or of corrections, line by line.
use crate::forms::Form;
use crate::kept::ROOM;
use crate::sources::PIECE;
use crate::state::State;
use crate::{complaints, corrections, ending, statements};
use rig_lines::console::{PAGE, flush};
use rig_lines::files::Reader;
use rig_lines::input;
use rig_lines::input::{Line, Source};

// Why a line is none of text.
pub(crate) fn form_of(found: Line) -> Form {
    match found {
        Line::TooLong => Form::LongLine,
        _ => Form::NoText,
    }
}

// Follows what taking a line of a file of loads found.
fn followed(
    page: &mut [u8; PAGE],
    kept: &mut [u8; ROOM],
    state: State,
    found: Line,
    line: &[u8],
) -> State {
    match found {
        Line::Text(n) => statements::with_line(page, kept, state, input::content(line, n)),
        Line::End => ending::input_ended(page, kept, state),
        Line::Failed => ending::input_failed(page, kept, state),
        _ => statements::without_text(state, form_of(found)),
    }
}

// What is said of a line of a file of loads is written at once.
fn written(
    page: &mut [u8; PAGE],
    kept: &mut [u8; ROOM],
    state: State,
    found: Line,
    line: &[u8],
) -> State {
    let followed = followed(page, kept, state, found, line);
    let next = complaints::said(page, kept, followed);
    next.moved(flush(page, next.at))
}

// The next line of a file.
fn with_line(
    reader: &mut Reader,
    page: &mut [u8; PAGE],
    kept: &mut [u8; ROOM],
    state: State,
    piece: &mut [u8; PIECE],
    line: &mut [u8; input::ROOM],
) -> State {
    let taken = input::next_line(reader, piece, line, state.source);
    let found = taken.line;
    let next = state.with_source(taken.source);
    if state.file.corrects {
        return corrections::with_line(page, kept, next, found, line);
    }
    written(page, kept, next, found, line)
}

// The lines of a file, one after another.
fn run_lines(
    reader: &mut Reader,
    page: &mut [u8; PAGE],
    kept: &mut [u8; ROOM],
    begun: State,
    piece: &mut [u8; PIECE],
    line: &mut [u8; input::ROOM],
) -> State {
    let mut state = begun;
    for _ in 0..u64::MAX {
        if !state.file.more {
            return state;
        }
        state = with_line(reader, page, kept, state, piece, line);
    }
    state
}

pub(crate) fn run_source(
    reader: &mut Reader,
    page: &mut [u8; PAGE],
    kept: &mut [u8; ROOM],
    state: State,
    source: Source,
    corrects: bool,
) -> State {
    let mut piece = io::buffer();
    let mut line = [0u8; input::ROOM];
    let begun = state.with_file(source, corrects);
    run_lines(reader, page, kept, begun, &mut piece, &mut line)
}
