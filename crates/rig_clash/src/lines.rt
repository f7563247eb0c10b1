// The statements of a load: `board`, `ack` and `expect`.
use crate::forms::Form;
use crate::kept::{ACKS, ACKS_AT, ROOM};
use crate::state::State;
use crate::words::Kind;
use crate::{boards, kept, words};
use arbitration_rules::{MAX_LENGTH, MAX_MASTERS};
use load_text::parts_in;
use text::{after_word, first_word, put_bytes};

// More than any line has words.
const MANY: u64 = 4096;

fn few(count: u64) -> u32 {
    count.min(MANY) as u32
}

// The bytes of a board, which are bytes.
fn with_bytes(
    kept: &mut [u8; ROOM],
    state: State,
    board: usize,
    kind: Kind,
    bytes: &[u8],
) -> State {
    let mut row = [0u8; MAX_LENGTH];
    let mut parts = [0u8; MAX_LENGTH];
    words::put_values(&mut row, kind, bytes);
    words::put_parts(&mut parts, bytes);
    kept::put_row(kept, kept::row_of(kept::MESSAGES_AT, board), &row);
    kept::put_row(kept, kept::row_of(kept::PARTS_AT, board), &parts);
    state.with_load(state.load.with_message(board, few(words::count(bytes))))
}

// What is wrong with what a board sends, or with what stands after `-`, where something is.
pub(crate) fn judged(state: State, bytes: &[u8]) -> State {
    let extra = first_word(after_word(bytes));
    let other = words::first_other(Kind::Byte, bytes);
    if words::is_dash(first_word(bytes)) {
        if extra.len() > 0 {
            return state.wrong(Form::AfterDash, extra, 0);
        }
        return state;
    }
    if other.len() > 0 {
        return state.wrong(words::form_of(other, Form::Bytes), other, 0);
    }
    state
}

// `board NAME HH HH ..` or `board NAME -`
pub(crate) fn with_board(kept: &mut [u8; ROOM], state: State, rest: &[u8]) -> State {
    let name = first_word(rest);
    let bytes = after_word(rest);
    if name.len() == 0 {
        return state.wrong_by(Form::NoBoard, 0);
    }
    let Some(board) = boards::find(kept, state.file.boards, name) else {
        return state.unknown_board(name);
    };
    if let Some(before) = state.load.line_of(board) {
        return state.wrong(Form::SecondBoard, name, before);
    }
    let next = judged(
        state.with_load(state.load.with_line(board, state.source.line)),
        bytes,
    );
    if next.is_wrong() | words::is_dash(first_word(bytes)) {
        return next;
    }
    with_bytes(kept, next, board, Kind::Byte, bytes)
}

// A row more, of which the first sixteen are kept.
fn with_row(mut state: State) -> State {
    let board = state.load.boards;
    state.load = state.load.with_line(board, state.source.line);
    state.load.rows = state.load.rows.saturating_add(1);
    if board < MAX_MASTERS {
        state.load.boards = board + 1;
    }
    state
}

// `board HH HH ..`, the old form.
pub(crate) fn with_numbered(kept: &mut [u8; ROOM], state: State, bytes: &[u8]) -> State {
    let next = with_row(state);
    let other = words::first_other(Kind::Short, bytes);
    if other.len() > 0 {
        return next.wrong(words::form_of(other, Form::ShortBytes), other, 0);
    }
    if state.load.boards < MAX_MASTERS {
        return with_bytes(kept, next, state.load.boards, Kind::Short, bytes);
    }
    next
}

// `all` and nothing else.
fn is_all(words: &[u8]) -> bool {
    matches!(first_word(words), b"all") & (first_word(after_word(words)).len() == 0)
}

// `ack A A ..` or `ack all`
pub(crate) fn with_ack(kept: &mut [u8; ROOM], mut state: State, acks: &[u8]) -> State {
    if let Some(line) = state.load.ack_line {
        return state.wrong_by(Form::SecondAck, line);
    }
    let mut row = [0u8; ACKS];
    state.load.ack_line = Some(state.source.line);
    state.load.all_acked = is_all(acks);
    if state.load.all_acked {
        return state;
    }
    let other = words::first_other(Kind::Ack, acks);
    if other.len() > 0 {
        return state.wrong(Form::Acks, other, 0);
    }
    words::put_values(&mut row, Kind::Ack, acks);
    put_bytes(kept, ACKS_AT, &row);
    state.load.acks = few(words::count(acks)) as usize;
    state
}

// What is expected of a board: so many bytes carried, of how many.
fn with_parts(state: State, board: usize, rest: &[u8]) -> State {
    let word = first_word(rest);
    let extra = first_word(after_word(rest));
    let Some((carried, length)) = parts_in(word) else {
        return state.wrong(Form::Parts, word, 0);
    };
    if extra.len() > 0 {
        return state.wrong(Form::Parts, extra, 0);
    }
    state.with_load(state.load.with_expected(board, carried, length))
}

// `expect NAME N/M`
pub(crate) fn with_expect(kept: &[u8], mut state: State, rest: &[u8]) -> State {
    let name = first_word(rest);
    let parts = after_word(rest);
    if let Some(line) = state.load.expect_line {
        return state.wrong_by(Form::SecondExpect, line);
    }
    state.load.expect_line = Some(state.source.line);
    if name.len() == 0 {
        return state.wrong_by(Form::NoParts, 0);
    }
    let Some(board) = boards::find(kept, state.file.boards, name) else {
        return state.unknown_board(name);
    };
    if first_word(parts).len() == 0 {
        return state.wrong_by(Form::NoParts, 0);
    }
    with_parts(state, board, parts)
}
