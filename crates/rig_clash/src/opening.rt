// The statement `load`, which begins a load.
use crate::forms::Form;
use crate::kept::{ACKS, ACKS_AT, NAME_AT, ROOM, TITLE, TITLE_AT};
use crate::state::State;
use crate::{kept, load, names};
use load_text::{LOAD_NAME, is_load_name};
use text::{after_word, first_word, put_byte, put_bytes};

fn put_blank(room: &mut [u8], at: usize) -> usize {
    if at == 0 {
        return at;
    }
    put_byte(room, at, b' ')
}

// Words, joined by one space each, as far as there is room; answers how much they take of it.
fn put_joined(room: &mut [u8], words: &[u8]) -> usize {
    let mut at: usize = 0;
    let mut rest = words;
    while first_word(rest).len() > 0 {
        at = put_blank(room, at);
        at = put_bytes(room, at, first_word(rest));
        rest = after_word(rest);
    }
    at
}

// The title is kept; answers whether it is too long.
fn keep_title(kept: &mut [u8; ROOM], words: &[u8]) -> bool {
    let mut room = [0u8; TITLE + 1];
    let length = put_joined(&mut room, words);
    kept::keep(kept, TITLE_AT, TITLE, kept::part(&room, 0, length));
    length > TITLE
}

fn keep_name(kept: &mut [u8; ROOM], name: &[u8]) {
    if name.len() == 0 {
        kept::keep(kept, NAME_AT, LOAD_NAME, b"?");
    } else {
        kept::keep(kept, NAME_AT, LOAD_NAME, name);
    }
}

// A load of which nothing but its first line is read.
fn opened(mut state: State) -> State {
    state.load = load::begun(
        state.source.line,
        state.file.is_named(),
        state.file.boards,
        state.file.widest,
    );
    state.file.loads = state.file.loads.saturating_add(1);
    state.with_tally(state.tally.with_load())
}

// With boards the words after the name are its title; answers whether it is too long.
fn with_title(kept: &mut [u8; ROOM], named: bool, words: &[u8]) -> bool {
    if named {
        return keep_title(kept, after_word(words));
    }
    false
}

// Nothing is kept of the load before.
fn keep_first(kept: &mut [u8; ROOM], name: &[u8]) {
    keep_name(kept, name);
    kept::keep(kept, TITLE_AT, TITLE, b"");
    kept::keep(kept, ACKS_AT, ACKS, b"");
}

// With boards the name is this load's alone; in the old form there is no word after it.
fn begun(kept: &mut [u8; ROOM], state: State, words: &[u8]) -> State {
    let name = first_word(words);
    let extra = first_word(after_word(words));
    let long = with_title(kept, state.file.is_named(), words);
    if name.len() == 0 {
        return state.wrong_by(Form::NoName, 0);
    }
    if !is_load_name(name) {
        return state.wrong(Form::LoadName, name, 0);
    }
    if !state.file.is_named() {
        if extra.len() > 0 {
            return state.wrong(Form::Title, extra, 0);
        }
        return state;
    }
    let taken = names::take(kept, name, state.source.line);
    if long {
        return state.wrong_by(Form::LongTitle, 0);
    }
    match taken {
        Some(line) => state.wrong_by(Form::Taken, line),
        None => state,
    }
}

// The next load of a file: `load NAME TITLE`.
pub(crate) fn with_load(kept: &mut [u8; ROOM], state: State, words: &[u8]) -> State {
    if state.file.is_named() & (state.file.loads >= names::LOADS) {
        return state.wrong_by(Form::ManyLoads, 0).done();
    }
    keep_first(kept, first_word(words));
    begun(kept, opened(state), words)
}
