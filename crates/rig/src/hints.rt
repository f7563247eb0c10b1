// What a file is, by its words: a hint where a command is handed another one's file.
use crate::lines;
use rig_lines::console::PAGE;

#[derive(Clone, Copy)]
pub(crate) enum Hint {
    Events,
    Dump,
    Loads,
    Trace,
}

impl Hint {
    fn words(self) -> &'static [u8] {
        match self {
            Hint::Events => b"; this looks like an event list: did you mean rig encode?",
            Hint::Dump => b"; this looks like a Value Change Dump: did you mean rig decode?",
            Hint::Loads => b"; this looks like a file of loads: did you mean rig clash?",
            Hint::Trace => b"; this looks like a trace: did you mean rig decode?",
        }
    }
}

// For rig encode, at a line that begins with a word.
pub(crate) fn loads(word: &[u8]) -> Option<Hint> {
    match word {
        b"boards" | b"load" | b"board" | b"ack" => Some(Hint::Loads),
        _ => None,
    }
}

// For a reader of traces, at a line that begins with a word.
pub(crate) fn other(word: &[u8]) -> Option<Hint> {
    match word {
        b"START" | b"STOP" | b"repeated" | b"cut" | b"start" | b"gap" => Some(Hint::Events),
        [.., b':'] => Some(Hint::Events),
        [b'$', ..] => Some(Hint::Dump),
        _ => loads(word),
    }
}

// For rig encode, at a list that looks like samples.
pub(crate) fn trace(samples: bool) -> Option<Hint> {
    samples.then_some(Hint::Trace)
}

// Ends a line with a hint, where there is one.
pub(crate) fn end(page: &mut [u8; PAGE], at: usize, hint: Option<Hint>) -> usize {
    match hint {
        Some(hint) => lines::end(page, at, hint.words()),
        None => lines::end(page, at, b""),
    }
}
