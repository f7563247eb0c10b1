// The words of the command line: a command by its name, and what follows it.
use crate::lines::{end, put};
use phases::Mode;
use rig_lines::arguments::{count, find, word};
use rig_lines::console::PAGE;
use rig_lines::numbers::{is_number, value};
use rig_lines::options::is_option;
use std::env::FillError;
use std::rt::Env;
use text::put_bytes;

#[derive(Clone, Copy)]
pub(crate) enum Task {
    Decode,
    Dump,
    Encode,
    Session,
    Sort,
}

impl Task {
    fn name(self) -> &'static [u8] {
        match self {
            Task::Decode => b"decode",
            Task::Dump => b"dump",
            Task::Encode => b"encode",
            Task::Session => b"session",
            Task::Sort => b"sort",
        }
    }

    // It goes without a file.
    fn reads_input(self) -> bool {
        matches!(self, Task::Encode | Task::Session)
    }
}

// What is wrong with the words.
#[derive(Clone, Copy)]
enum Trouble {
    TooLong,
    NoNumber,
    WordForNumber,
    NoFile,
    InputTwice,
    TwoModes,
    ModeAndThin,
    NoCommand,
    UnknownCommand,
    SecondFile(Task),
    UnknownOption(Task),
}

const NO_COMMAND: &[u8] =
    b"error expected a command: clash, decode, draw, dump, encode, match, night, session or sort";

const UNKNOWN: &[u8] =
    b"error unknown command $: expected clash, decode, draw, dump, encode, match, night, session or sort";

impl Trouble {
    // What is said of it, before a command's name; `$` stands for the word that it is about.
    fn words(self) -> &'static [u8] {
        match self {
            Trouble::TooLong => b"error an argument is longer than 4096 bytes",
            Trouble::NoNumber => b"error expected a number after --room",
            Trouble::WordForNumber => b"error expected a number after --room, not $",
            Trouble::NoFile => b"error expected a file, or - for standard input",
            Trouble::InputTwice => b"error - stands twice: standard input is read once",
            Trouble::TwoModes => b"error --standard does not go with --fast",
            Trouble::ModeAndThin => b"error --thin goes with neither --standard nor --fast",
            Trouble::NoCommand => NO_COMMAND,
            Trouble::UnknownCommand => UNKNOWN,
            Trouble::SecondFile(_) => b"error a second file $: ",
            Trouble::UnknownOption(_) => b"error unknown option $ for ",
        }
    }

    // It is about an argument.
    fn about(self, argument: usize) -> Complaint {
        Complaint {
            trouble: self,
            argument,
        }
    }
}

// What is wrong, and with which argument.
#[derive(Clone, Copy)]
pub(crate) struct Complaint {
    trouble: Trouble,
    argument: usize,
}

impl Complaint {
    pub(crate) fn put<E: Env>(self, env: &E, page: &mut [u8; PAGE]) -> usize {
        let mut space = io::buffer();
        let n = word(env, self.argument, &mut space);
        let front = put(page, 0, self.trouble.words(), &[], &space[..n]);
        match self.trouble {
            Trouble::SecondFile(task) => {
                let named = put_bytes(page, front, task.name());
                end(page, named, b" reads one")
            }
            Trouble::UnknownOption(task) => end(page, front, task.name()),
            _ => end(page, front, b""),
        }
    }
}

#[derive(Clone, Copy)]
pub(crate) struct Arguments {
    pub(crate) task: Task,
    // which argument names the file
    pub(crate) file: Option<usize>,
    // the phases of a trace are judged as of Standard-mode, or of Fast-mode
    standard: bool,
    fast: bool,
    // samples that change no level are dropped
    pub(crate) thin: bool,
    // room to lend to the library; a command lends no more than it has
    pub(crate) room: usize,
    // the file is standard input
    input: bool,
    // the next word is the number of --room
    wants_room: bool,
}

impl Arguments {
    fn none(task: Task) -> Arguments {
        Arguments {
            task,
            file: None,
            standard: false,
            fast: false,
            thin: false,
            room: usize::MAX,
            input: false,
            wants_room: false,
        }
    }

    fn with_room(mut self, argument: usize, word: &[u8]) -> Result<Arguments, Complaint> {
        let number = text::decimal(word);
        if !is_number(number) {
            return Err(Trouble::WordForNumber.about(argument));
        }
        self.room = value(number) as usize;
        self.wants_room = false;
        Ok(self)
    }

    // Standard input is read once.
    fn with_file(mut self, argument: usize, input: bool) -> Result<Arguments, Complaint> {
        if self.input & input {
            return Err(Trouble::InputTwice.about(argument));
        }
        if self.file.is_some() {
            return Err(Trouble::SecondFile(self.task).about(argument));
        }
        self.file = Some(argument);
        self.input = input;
        Ok(self)
    }

    // The mode in which a trace is read.
    pub(crate) fn mode(self) -> Mode {
        if self.standard {
            return Mode::Standard;
        }
        if self.fast {
            return Mode::Fast;
        }
        Mode::Unchecked
    }

    // The option that names it.
    pub(crate) fn mode_option(self) -> Option<&'static [u8]> {
        if self.standard {
            return Some(b"--standard");
        }
        if self.fast {
            return Some(b"--fast");
        }
        None
    }

    fn with_option(mut self, argument: usize, word: &[u8]) -> Result<Arguments, Complaint> {
        match (self.task, word) {
            (Task::Decode | Task::Encode, b"--room") => self.wants_room = true,
            (Task::Decode, b"--standard") => self.standard = true,
            (Task::Decode, b"--fast") => self.fast = true,
            (Task::Decode, b"--thin") => self.thin = true,
            _ => return Err(Trouble::UnknownOption(self.task).about(argument)),
        }
        Ok(self)
    }

    fn with_word(self, argument: usize, word: &[u8]) -> Result<Arguments, Complaint> {
        if self.wants_room {
            return self.with_room(argument, word);
        }
        if is_option(word) {
            return self.with_option(argument, word);
        }
        self.with_file(argument, matches!(word, b"-"))
    }

    fn with_argument<E: Env>(self, env: &E, argument: usize) -> Result<Arguments, Complaint> {
        let mut space = io::buffer();
        match find(env, argument, &mut space) {
            Ok(n) => self.with_word(argument, &space[..n]),
            Err(_) => Err(Trouble::TooLong.about(argument)),
        }
    }

    // What is found once all words are read.
    fn finished(self) -> Result<Arguments, Complaint> {
        if self.wants_room {
            return Err(Trouble::NoNumber.about(0));
        }
        if self.file.is_none() & !self.task.reads_input() {
            return Err(Trouble::NoFile.about(0));
        }
        if self.standard & self.fast {
            return Err(Trouble::TwoModes.about(0));
        }
        if self.thin & (self.standard | self.fast) {
            return Err(Trouble::ModeAndThin.about(0));
        }
        Ok(self)
    }
}

// The command that the first word names.
fn of_command(word: &[u8]) -> Result<Task, Complaint> {
    match word {
        b"decode" => Ok(Task::Decode),
        b"dump" => Ok(Task::Dump),
        b"encode" => Ok(Task::Encode),
        b"session" => Ok(Task::Session),
        b"sort" => Ok(Task::Sort),
        _ => Err(Trouble::UnknownCommand.about(1)),
    }
}

fn chosen<E: Env>(env: &E) -> Result<Task, Complaint> {
    let mut space = io::buffer();
    match find(env, 1, &mut space) {
        Ok(n) => of_command(&space[..n]),
        Err(FillError::TooLong) => Err(Trouble::TooLong.about(1)),
        Err(FillError::NotPresent) => Err(Trouble::NoCommand.about(0)),
    }
}

// The loop of rig_clash is the same: a function for both would take a closure for the word, and save no line.
pub(crate) fn parse<E: Env>(env: &E) -> Result<Arguments, Complaint> {
    let mut given = Arguments::none(chosen(env)?);
    for i in 2..count(env) {
        given = given.with_argument(env, i)?;
    }
    given.finished()
}
