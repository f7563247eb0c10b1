// What is known while the files are read.
use crate::forms::Form;
use crate::load::Load;
use crate::problem::{Problem, Reach};
use crate::tally::Tally;
use crate::{load, problem, tally};
use rig_lines::input;
use rig_lines::input::Source;

// What is shown of a load, and the room lent to the library.
#[derive(Clone, Copy)]
pub(crate) struct Options {
    pub(crate) table: bool,
    pub(crate) registers: bool,
    pub(crate) wave: bool,
    pub(crate) room: usize,
    // a load's trace or its drawing is asked for; the load's name is kept
    pub(crate) trace: bool,
    // each load is a night
    pub(crate) night: bool,
    // that load is drawn, in text or as an SVG document
    pub(crate) draws: bool,
    pub(crate) svg: bool,
}

// How a file names its boards, by its first statement: by `boards`, or by their rows, as in the old form.
#[derive(Clone, Copy, PartialEq, Eq)]
pub(crate) enum Naming {
    Names,
    Rows,
}

// The file that is being read.
#[derive(Clone, Copy)]
pub(crate) struct File {
    // whether there is more to read
    pub(crate) more: bool,
    // it is the file of corrections
    pub(crate) corrects: bool,
    // where there was a statement
    pub(crate) naming: Option<Naming>,
    // how many boards are named, the longest name, and the line of `boards`
    pub(crate) boards: usize,
    pub(crate) widest: usize,
    pub(crate) boards_line: u64,
    // how many loads were begun
    pub(crate) loads: u64,
    // the line of `end`
    pub(crate) end_line: Option<u64>,
}

#[derive(Clone, Copy)]
pub(crate) struct State {
    // where the page goes on
    pub(crate) at: usize,
    pub(crate) options: Options,
    pub(crate) source: Source,
    pub(crate) file: File,
    pub(crate) load: Load,
    // how many corrections are kept
    pub(crate) corrections: usize,
    pub(crate) tally: Tally,
    // what is wrong with the line that is being read
    pub(crate) problem: Option<Problem>,
}

impl File {
    pub(crate) fn is_named(self) -> bool {
        self.naming == Some(Naming::Names)
    }
}

fn unread(corrects: bool) -> File {
    File {
        more: true,
        corrects,
        naming: None,
        boards: 0,
        widest: 0,
        boards_line: 0,
        loads: 0,
        end_line: None,
    }
}

pub(crate) fn begun(options: Options) -> State {
    State {
        at: 0,
        options,
        source: input::begin(0, 0),
        file: unread(false),
        load: load::none(),
        corrections: 0,
        tally: tally::none(),
        problem: None,
    }
}

impl State {
    pub(crate) fn moved(mut self, at: usize) -> State {
        self.at = at;
        self
    }

    // A file is opened.
    pub(crate) fn with_file(mut self, source: Source, corrects: bool) -> State {
        self.source = source;
        self.file = unread(corrects);
        self.load = load::none();
        self
    }

    pub(crate) fn with_source(mut self, source: Source) -> State {
        self.source = source;
        self
    }

    pub(crate) fn with_load(mut self, load: Load) -> State {
        self.load = load;
        self
    }

    pub(crate) fn with_tally(mut self, tally: Tally) -> State {
        self.tally = tally;
        self
    }

    // No more of the file is read.
    pub(crate) fn done(mut self) -> State {
        self.file.more = false;
        self
    }

    // The load that is being read is in error.
    pub(crate) fn broken(mut self) -> State {
        self.load.broken = true;
        self
    }

    // The load that is being read is in error, or, where there is none, a fault is counted.
    pub(crate) fn blamed(self) -> State {
        if self.load.open {
            return self.broken();
        }
        self.faulted()
    }

    // A fault, whether a load is being read or not.
    pub(crate) fn faulted(self) -> State {
        self.with_tally(self.tally.with_fault())
    }

    // Nothing is wrong, or what was is said.
    pub(crate) fn without_problem(mut self) -> State {
        self.problem = None;
        self
    }

    // Something is wrong, in words with their marks: a word that was met, and a number.
    pub(crate) fn with_problem(
        mut self,
        line: Option<u64>,
        form: Form,
        word: &[u8],
        number: u64,
        reach: Reach,
    ) -> State {
        let loads = self.file.loads;
        self.problem = Some(problem::of(line, form, word, number, loads, self.load.line, reach));
        self
    }

    // The line that is read is wrong.
    pub(crate) fn wrong(self, form: Form, word: &[u8], number: u64) -> State {
        self.with_problem(Some(self.source.line), form, word, number, Reach::Line)
    }

    // The same in words that name no word that was met.
    pub(crate) fn wrong_by(self, form: Form, number: u64) -> State {
        self.wrong(form, b"", number)
    }

    pub(crate) fn is_wrong(self) -> bool {
        self.problem.is_some()
    }

    // No board of the file has that name.
    pub(crate) fn unknown_board(self, name: &[u8]) -> State {
        self.wrong(Form::UnknownBoard, name, self.file.boards_line)
    }

    // A fault before the first load, for which nothing of the file is read.
    pub(crate) fn unread(self, form: Form, word: &[u8]) -> State {
        let line = Some(self.source.line);
        self.with_problem(line, form, word, 0, Reach::File).done()
    }
}
