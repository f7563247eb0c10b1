// A file read line by line: how far it is, and what is wrong with the line read last.
use crate::hints::Hint;
use crate::lines::suffix;
use crate::trouble;
use crate::trouble::{Fault, Wrong};
use rig_lines::console::PAGE;
use rig_lines::input;
use rig_lines::input::{Line, ROOM, Source, Taken};
use std::rt::Env;
use text::first_word;

#[derive(Clone, Copy)]
pub(crate) struct Progress {
    pub(crate) source: Source,
    pub(crate) more: bool,
    // what is wrong with the line, after which there is no more
    pub(crate) wrong: Option<Wrong>,
    // how many bytes of the line are text
    pub(crate) length: usize,
}

impl Progress {
    pub(crate) fn new(source: Source) -> Progress {
        Progress {
            source,
            more: true,
            wrong: None,
            length: 0,
        }
    }

    // Where the next line is taken from, while there is more.
    pub(crate) fn next(self) -> Option<Source> {
        self.more.then_some(self.source)
    }

    // There is no more, and nothing is wrong.
    pub(crate) fn ended(mut self) -> Progress {
        self.more = false;
        self
    }

    pub(crate) fn failed(mut self, wrong: Wrong) -> Progress {
        self.more = false;
        self.wrong = Some(wrong);
        self
    }

    fn with_text(mut self, n: usize) -> Progress {
        self.length = n;
        self
    }

    pub(crate) fn fault(self) -> Option<Fault> {
        self.wrong.map(|wrong| wrong.fault)
    }

    // Says what is wrong, with a hint.
    pub(crate) fn complain<E: Env>(
        self,
        env: &E,
        page: &mut [u8; PAGE],
        line: &[u8; ROOM],
        wrong: Wrong,
        hint: Option<Hint>,
    ) -> usize {
        let words = input::content(line, self.length);
        let word = first_word(suffix(words, wrong.left));
        trouble::put_fault(env, page, self.source, wrong.fault, word, hint)
    }
}

// How far a file is after a line was taken.
pub(crate) fn after(taken: Taken) -> Progress {
    let begun = Progress::new(taken.source);
    match taken.line {
        Line::Text(n) => begun.with_text(n),
        Line::TooLong => begun.failed(Fault::TooLong.at(0)),
        Line::NoText => begun.failed(Fault::NoText.at(0)),
        Line::End => begun.ended(),
        Line::Failed => begun.failed(Fault::Failed.at(0)),
    }
}
