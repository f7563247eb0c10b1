// How a file ends: the statement `end`, what stands after it, the end of the input, and an input that fails.
use crate::complaints::fault;
use crate::finish;
use crate::forms::Form;
use crate::kept::ROOM;
use crate::phrase::put_line;
use crate::problem::Reach;
use crate::state::State;
use rig_lines::console::PAGE;
use rig_lines::numbers::{is_number, value};
use text::{after_word, first_word};

// The word that is not as it ought to be: one that is no number, or the one after it.
fn other(rest: &[u8]) -> &[u8] {
    if is_number(text::decimal(first_word(rest))) {
        return first_word(after_word(rest));
    }
    first_word(rest)
}

// `end N`; form: the words about another number than there are loads.
pub(crate) fn with_end(mut state: State, rest: &[u8], form: Form) -> State {
    let said = value(text::decimal(first_word(rest)));
    state.file.end_line = Some(state.source.line);
    if first_word(rest).len() == 0 {
        return state.wrong_by(Form::NoCount, 0);
    }
    if other(rest).len() > 0 {
        return state.wrong(Form::Count, other(rest), 0);
    }
    if said != state.file.loads {
        return state.wrong_by(form, said);
    }
    state
}

// A file that was read to its end, or to what stands after `end`, has a load.
pub(crate) fn with_any(page: &mut [u8; PAGE], state: State) -> State {
    if state.file.loads == 0 {
        return fault(page, state, Form::NoLoad, b"").done();
    }
    state.done()
}

// A statement after `end`, which stands on a line: no more of the file is read.
pub(crate) fn after_end(state: State, form: Form, end_line: u64) -> State {
    let line = Some(state.source.line);
    state.with_problem(line, form, b"", end_line, Reach::Rest)
}

// The last load of a file without `end` may be cut short.
fn cut_short(page: &mut [u8; PAGE], kept: &[u8], state: State) -> State {
    let words = b"! load *: the file ends without an end line; this load may be cut short";
    let end = put_line(page, state.at, kept, true, words, &[]);
    state.moved(end).blamed()
}

// The last load of a file is finished. With boards, a file without `end` is at fault, or its last load in error.
pub(crate) fn input_ended(page: &mut [u8; PAGE], kept: &mut [u8; ROOM], state: State) -> State {
    let mut next = finish::missing(page, kept, state);
    let lacks_end = state.file.is_named() & state.file.end_line.is_none();
    let cut = lacks_end & next.load.open & !next.load.broken;
    if cut {
        next = cut_short(page, kept, next);
    }
    next = finish::finish(page, kept, next);
    if lacks_end & !cut {
        next = fault(page, next, Form::NoEnd, b"");
    }
    with_any(page, next)
}

// A fault of the file itself: words that it cannot be opened or read, and why.
pub(crate) fn failed(
    page: &mut [u8; PAGE],
    kept: &[u8],
    state: State,
    words: &[u8],
    argument: usize,
    errno: u64,
) -> State {
    let end = put_line(page, state.at, kept, true, words, &[argument as u64, errno]);
    state.moved(end).faulted().done()
}

// The input cannot be read: the load that is being read is in error.
pub(crate) fn input_failed(page: &mut [u8; PAGE], kept: &mut [u8; ROOM], state: State) -> State {
    let source = state.source;
    let words = b"! cannot read +: `";
    let next = failed(page, kept, state, words, source.argument, source.errno);
    finish::finish(page, kept, next.broken())
}
