// Lines about what is wrong in a file.
use crate::ending;
use crate::forms::Form;
use crate::phrase::{begin_numbers, put_front};
use crate::problem::{Reach, put_words};
use crate::state::State;
use rig_lines::console::PAGE;
use text::{put_byte, put_bytes};

// Says what is wrong with the line that was followed, where something is: it costs the load that is being read, and is
// a fault where there is none.
pub(crate) fn said(page: &mut [u8; PAGE], kept: &[u8], state: State) -> State {
    let Some(problem) = state.problem else {
        return state;
    };
    let words: &[u8] = if state.load.open {
        b"! line #: load *: "
    } else {
        b"! line #: "
    };
    let place = put_front(page, state.at, kept, words, &[problem.line.unwrap_or(0)]);
    let wrong = problem.put(page, place);
    let last: &[u8] = match problem.reach {
        Reach::File => b"; the file is not read\n",
        _ => b"\n",
    };
    let end = put_bytes(page, wrong, last);
    let next = state.moved(end).without_problem().blamed();
    if problem.reach == Reach::Rest {
        return ending::with_any(page, next);
    }
    next
}

// A fault that no line is to blame for.
pub(crate) fn fault(page: &mut [u8; PAGE], state: State, form: Form, word: &[u8]) -> State {
    let mark = begin_numbers(page, state.at, b"! ", &[]);
    let words = put_words(page, mark, form.words(), word, 0, 0, 0);
    let end = put_byte(page, words, b'\n');
    state.moved(end).faulted()
}
