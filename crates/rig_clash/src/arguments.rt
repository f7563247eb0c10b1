// The words of the command line: the command, clash, night or draw, is the first.
use crate::forms::Form;
use crate::problem;
use crate::problem::{Problem, Reach};
use crate::words::is_dash;
use rig_lines::arguments::{count, find, word};
use rig_lines::numbers::{is_number, value};
use rig_lines::options::is_option;
use std::env::FillError;
use std::rt::Env;

#[derive(Clone, Copy, PartialEq, Eq)]
enum Command {
    Clash,
    Night,
    Draw,
}

// The options that take the next word.
#[derive(Clone, Copy, PartialEq, Eq)]
enum Taking {
    Room,
    Corrections,
    Trace,
}

#[derive(Clone, Copy, PartialEq, Eq)]
enum Flag {
    Table,
    Registers,
    Wave,
    Svg,
    Taking(Taking),
}

// What a word is, where files are looked for: a file, or an option, which may take the next word.
#[derive(Clone, Copy, PartialEq, Eq)]
enum Role {
    File,
    Alone,
    Taking,
}

#[derive(Clone, Copy)]
pub(crate) struct Arguments {
    command: Command,
    pub(crate) svg: bool,
    // whether an argument names a file of loads
    file: bool,
    // which one names the file of corrections
    pub(crate) corrections: Option<usize>,
    // which one names the load whose trace is shown
    pub(crate) trace: Option<usize>,
    pub(crate) table: bool,
    pub(crate) registers: bool,
    pub(crate) wave: bool,
    // room to lend to the library; no more is lent than there is
    pub(crate) room: usize,
    // standard input is one of the files
    input: bool,
    // the option that the next word is for
    wants: Option<Taking>,
}

fn flag_of(word: &[u8]) -> Option<Flag> {
    match word {
        b"--table" => Some(Flag::Table),
        b"--registers" => Some(Flag::Registers),
        b"--wave" => Some(Flag::Wave),
        b"--room" => Some(Flag::Taking(Taking::Room)),
        b"--corrections" => Some(Flag::Taking(Taking::Corrections)),
        b"--trace" => Some(Flag::Taking(Taking::Trace)),
        b"--svg" => Some(Flag::Svg),
        _ => None,
    }
}

// What is wrong with the words, with the word that was met.
fn trouble(form: Form, word: &[u8]) -> Problem {
    problem::of(None, form, word, 0, 0, 0, Reach::Line)
}

impl Arguments {
    fn none(command: Command) -> Arguments {
        Arguments {
            command,
            svg: false,
            file: false,
            corrections: None,
            trace: None,
            table: false,
            registers: false,
            wave: false,
            room: usize::MAX,
            input: false,
            wants: None,
        }
    }

    fn with_room(mut self, word: &[u8]) -> Result<Arguments, Problem> {
        let number = text::decimal(word);
        if !is_number(number) {
            return Err(trouble(Form::Number, word));
        }
        self.room = value(number) as usize;
        self.wants = None;
        Ok(self)
    }

    fn with_file(mut self) -> Arguments {
        self.file = true;
        self
    }

    // Standard input is read once.
    fn with_input(mut self) -> Result<Arguments, Problem> {
        if self.input {
            return Err(trouble(Form::InputTwice, b""));
        }
        self.input = true;
        Ok(self)
    }

    // The file after --corrections.
    fn with_corrections(mut self, argument: usize, word: &[u8]) -> Result<Arguments, Problem> {
        self.corrections = Some(argument);
        self.wants = None;
        if is_dash(word) {
            return self.with_input();
        }
        Ok(self)
    }

    // The load after --trace.
    fn with_trace(mut self, argument: usize) -> Arguments {
        self.trace = Some(argument);
        self.wants = None;
        self
    }

    fn with_option(self, word: &[u8]) -> Result<Arguments, Problem> {
        match flag_of(word) {
            Some(flag) if takes(self.command, flag) => Ok(self.with_flag(flag)),
            _ => Err(trouble(unknown_form(self.command), word)),
        }
    }

    fn with_flag(mut self, flag: Flag) -> Arguments {
        match flag {
            Flag::Table => self.table = true,
            Flag::Registers => self.registers = true,
            Flag::Wave => self.wave = true,
            Flag::Svg => self.svg = true,
            Flag::Taking(taking) => self.wants = Some(taking),
        }
        self
    }

    // A word that no option takes.
    fn with_other(self, argument: usize, word: &[u8]) -> Result<Arguments, Problem> {
        if is_option(word) {
            return self.with_option(word);
        }
        if self.draws() & self.file {
            return self.with_load(argument, word);
        }
        if is_dash(word) {
            return self.with_file().with_input();
        }
        Ok(self.with_file())
    }

    // The load that is drawn.
    fn with_load(self, argument: usize, word: &[u8]) -> Result<Arguments, Problem> {
        if self.trace.is_some() {
            return Err(trouble(Form::AfterLoad, word));
        }
        Ok(self.with_trace(argument))
    }

    pub(crate) fn nights(self) -> bool {
        self.command == Command::Night
    }

    pub(crate) fn draws(self) -> bool {
        self.command == Command::Draw
    }

    fn with_word(self, argument: usize, word: &[u8]) -> Result<Arguments, Problem> {
        match self.wants {
            Some(Taking::Room) => self.with_room(word),
            Some(Taking::Corrections) => self.with_corrections(argument, word),
            Some(Taking::Trace) => Ok(self.with_trace(argument)),
            None => self.with_other(argument, word),
        }
    }

    fn with_argument<E: Env>(self, env: &E, argument: usize) -> Result<Arguments, Problem> {
        let mut space = io::buffer();
        match find(env, argument, &mut space) {
            Ok(n) => self.with_word(argument, &space[..n]),
            Err(_) => Err(trouble(Form::LongArgument, b"")),
        }
    }

    // What is wrong once all words are read: an option lacks its word, there is no file, or a table or a trace is not
    // shown alone.
    fn lacking(self) -> Option<Form> {
        match self.wants {
            Some(Taking::Room) => return Some(Form::NoNumber),
            Some(Taking::Corrections) => return Some(Form::NoCorrections),
            Some(Taking::Trace) => return Some(Form::NoTrace),
            None => {}
        }
        if !self.file {
            return Some(Form::NoFile);
        }
        if self.draws() & self.trace.is_none() {
            return Some(Form::NoDrawn);
        }
        if self.table & (self.registers | self.wave) {
            return Some(Form::Table);
        }
        if self.trace.is_some() & (self.table | self.registers | self.wave) {
            return Some(Form::Trace);
        }
        None
    }

    fn finished(self) -> Result<Arguments, Problem> {
        match self.lacking() {
            Some(form) => Err(trouble(form, b"")),
            None => Ok(self),
        }
    }
}

fn command_of<E: Env>(env: &E) -> Command {
    let mut space = io::buffer();
    let n = word(env, 1, &mut space);
    match &space[..n] {
        b"night" => Command::Night,
        b"draw" => Command::Draw,
        _ => Command::Clash,
    }
}

// Whether a command takes an option: a night takes corrections alone, and draw takes --svg too, which clash does not.
fn takes(command: Command, flag: Flag) -> bool {
    let corrects = flag == Flag::Taking(Taking::Corrections);
    match command {
        Command::Night => corrects,
        Command::Draw => corrects | (flag == Flag::Svg),
        Command::Clash => flag != Flag::Svg,
    }
}

fn unknown_form(command: Command) -> Form {
    match command {
        Command::Night => Form::NightOption,
        Command::Draw => Form::DrawOption,
        Command::Clash => Form::Option,
    }
}

pub(crate) fn parse<E: Env>(env: &E) -> Result<Arguments, Problem> {
    let mut given = Arguments::none(command_of(env));
    for argument in 2..count(env) {
        given = given.with_argument(env, argument)?;
    }
    given.finished()
}

fn role_of(word: &[u8]) -> Role {
    match flag_of(word) {
        Some(Flag::Taking(_)) => Role::Taking,
        _ if is_option(word) => Role::Alone,
        _ => Role::File,
    }
}

// The same of an argument, if there is one; what is longer than any option is a file.
fn role_at<E: Env>(env: &E, argument: usize) -> Option<Role> {
    let mut space = io::buffer();
    match find(env, argument, &mut space) {
        Ok(n) => Some(role_of(&space[..n])),
        Err(FillError::NotPresent) => None,
        Err(_) => Some(Role::File),
    }
}

// The first argument from one on that names a file. The walk ends at the first that is missing: it is made once for each
// file, so it must not count them all.
pub(crate) fn next_file<E: Env>(env: &E, from: usize) -> Option<usize> {
    let mut taken = false;
    for argument in from..usize::MAX {
        let role = role_at(env, argument)?;
        if !taken & (role == Role::File) {
            return Some(argument);
        }
        taken = !taken & (role == Role::Taking);
    }
    None
}
