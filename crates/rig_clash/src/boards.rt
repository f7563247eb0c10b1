// The boards of a file, by name.
use crate::forms::Form;
use crate::kept;
use crate::kept::ROOM;
use crate::state::{Naming, State};
use arbitration_rules::MAX_MASTERS;
use load_text::is_board_name;
use text::{after_word, first_word};

// The board of that name among the first so many.
pub(crate) fn find(kept: &[u8], boards: usize, name: &[u8]) -> Option<usize> {
    (0..boards).find(|board| kept::board_name(kept, *board) == name)
}

// One board more, with a name of that length.
fn named(mut state: State, length: usize) -> State {
    let board = state.file.boards;
    if board < MAX_MASTERS {
        state.file.boards = board + 1;
        state.file.widest = state.file.widest.max(length);
    }
    state
}

fn with_name(kept: &mut [u8; ROOM], state: State, name: &[u8]) -> State {
    if state.file.boards >= MAX_MASTERS {
        return state.unread(Form::ManyBoards, name);
    }
    if !is_board_name(name) {
        return state.unread(Form::BoardName, name);
    }
    if find(kept, state.file.boards, name).is_some() {
        return state.unread(Form::NamedTwice, name);
    }
    kept::keep_board_name(kept, state.file.boards, name);
    named(state, name.len())
}

fn with_names(kept: &mut [u8; ROOM], begun: State, words: &[u8]) -> State {
    let mut state = begun;
    let mut rest = words;
    while first_word(rest).len() > 0 {
        state = with_name(kept, state, first_word(rest));
        if !state.file.more {
            return state;
        }
        rest = after_word(rest);
    }
    state
}

// `boards NAME ..`, the first statement.
pub(crate) fn with_boards(kept: &mut [u8; ROOM], mut state: State, words: &[u8]) -> State {
    if first_word(words).len() == 0 {
        return state.unread(Form::NoBoards, words);
    }
    state.file.naming = Some(Naming::Names);
    state.file.boards_line = state.source.line;
    with_names(kept, state, words)
}
