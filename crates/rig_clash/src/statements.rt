// The statements of a file of loads, each by its first word.
use crate::forms::Form;
use crate::kept::ROOM;
use crate::phrase::put_note;
use crate::state::{File, Naming, State};
use crate::{boards, ending, finish, lines, opening};
use rig_lines::console::PAGE;
use text::{after_word, first_word};

#[derive(Clone, Copy)]
pub(crate) enum Statement {
    Boards,
    Load,
    Board,
    Ack,
    Expect,
    End,
    Other,
}

pub(crate) fn named(word: &[u8]) -> Statement {
    match word {
        b"boards" => Statement::Boards,
        b"load" => Statement::Load,
        b"board" => Statement::Board,
        b"ack" => Statement::Ack,
        b"expect" => Statement::Expect,
        b"end" => Statement::End,
        _ => Statement::Other,
    }
}

// What a line of a file does. In the old form the first load and a board differ from those of a file with boards.
#[derive(Clone, Copy)]
enum Deed {
    Nothing,
    // after `end`, which stands on that line
    Ended(u64),
    Boards,
    Load,
    FirstLoad,
    End,
    Board,
    NumberedBoard,
    Ack,
    Expect,
    SecondBoards,
    First,
    // with these words
    Wrong(Form),
}

// The first statement of a file.
fn first(statement: Statement) -> Deed {
    match statement {
        Statement::Boards => Deed::Boards,
        Statement::Load => Deed::FirstLoad,
        _ => Deed::First,
    }
}

// A statement in a load of a file with boards.
fn inside(statement: Statement) -> Deed {
    match statement {
        Statement::Load => Deed::Load,
        Statement::End => Deed::End,
        Statement::Boards => Deed::SecondBoards,
        Statement::Board => Deed::Board,
        Statement::Ack => Deed::Ack,
        Statement::Expect => Deed::Expect,
        Statement::Other => Deed::Wrong(Form::Inside),
    }
}

// A statement between `boards` and the first load.
fn outside(statement: Statement) -> Deed {
    match statement {
        Statement::Load => Deed::Load,
        Statement::End => Deed::End,
        Statement::Boards => Deed::SecondBoards,
        _ => Deed::Wrong(Form::Outside),
    }
}

// A statement of a file in the old form.
fn numbered(statement: Statement) -> Deed {
    match statement {
        Statement::Load => Deed::Load,
        Statement::Board => Deed::NumberedBoard,
        Statement::Ack => Deed::Ack,
        Statement::Boards => Deed::Wrong(Form::LateBoards),
        _ => Deed::Wrong(Form::Numbered),
    }
}

// A statement, where `end` was none before.
fn stated(file: File, open: bool, word: &[u8]) -> Deed {
    let statement = named(word);
    match file.naming {
        None => first(statement),
        Some(Naming::Rows) => numbered(statement),
        Some(Naming::Names) if open => inside(statement),
        Some(Naming::Names) => outside(statement),
    }
}

fn deed_of(state: State, word: &[u8]) -> Deed {
    if word.len() == 0 {
        return Deed::Nothing;
    }
    if let Some(line) = state.file.end_line {
        return Deed::Ended(line);
    }
    stated(state.file, state.load.open, word)
}

// A line of which something is kept, or that is wrong.
fn recorded(kept: &mut [u8; ROOM], state: State, deed: Deed, word: &[u8], rest: &[u8]) -> State {
    match deed {
        Deed::Nothing => state,
        Deed::Boards => boards::with_boards(kept, state, rest),
        Deed::Load | Deed::FirstLoad => opening::with_load(kept, state, rest),
        Deed::Board => lines::with_board(kept, state, rest),
        Deed::NumberedBoard => lines::with_numbered(kept, state, rest),
        Deed::Ack => lines::with_ack(kept, state, rest),
        Deed::Expect => lines::with_expect(kept, state, rest),
        Deed::End => ending::with_end(state, rest, Form::Counted),
        Deed::Ended(line) => ending::after_end(state, Form::AfterEnd, line),
        Deed::SecondBoards => state.wrong_by(Form::SecondBoards, state.file.boards_line),
        Deed::First => state.unread(Form::First, word),
        Deed::Wrong(form) => state.wrong(form, word, 0),
    }
}

// The first `load` of a file in the old form, of which a note says so.
fn in_old_form(page: &mut [u8; PAGE], kept: &[u8], mut state: State) -> State {
    let words = b"rig: +: no boards line, so boards are numbered by their rows\n";
    state.file.naming = Some(Naming::Rows);
    state.moved(put_note(page, state.at, kept, words, &[state.source.argument as u64]))
}

// `load` and `end` finish the load before them.
fn finished(page: &mut [u8; PAGE], kept: &mut [u8; ROOM], state: State, deed: Deed) -> State {
    match deed {
        Deed::Load | Deed::End => finish::finish(page, kept, state),
        Deed::FirstLoad => in_old_form(page, kept, state),
        _ => state,
    }
}

// A line of text, without its comment.
pub(crate) fn with_line(
    page: &mut [u8; PAGE],
    kept: &mut [u8; ROOM],
    state: State,
    line: &[u8],
) -> State {
    let deed = deed_of(state, first_word(line));
    let before = finished(page, kept, state, deed);
    recorded(kept, before, deed, first_word(line), after_word(line))
}

// A line that is too long or no text.
pub(crate) fn without_text(state: State, form: Form) -> State {
    if let Some(line) = state.file.end_line {
        return ending::after_end(state, Form::AfterEnd, line);
    }
    if state.file.naming.is_some() {
        return state.wrong_by(form, 0);
    }
    state.unread(form, b"")
}
