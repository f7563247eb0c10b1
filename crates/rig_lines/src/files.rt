// Files by the name on the command line, and what can be wrong with one.
ghost use Rattle.std.specs.Prelude.{◌<◌};
ghost use Rattle.text.specs.Output.{Put};
ghost use Rattle.rig_lines.specs.Opening.{Opening, reason_text, Named};

use crate::console::{put_form, put_shown};
use crate::input::Source;
use crate::{arguments, input};
use check::same;
use std::fs::File;
use std::io::{Error, Read, Stdin};
use std::os::fd::AsRawFd;
use std::rt::{Env, Files};
use std::str::from_utf8;
use text::put_bytes;

// The numbers of the system's errors.
const NO_FILE: u64 = 2;

const NOT_OPEN: u64 = 9;

const NO_PERMISSION: u64 = 13;

const DIRECTORY: u64 = 21;

const LONG_NAME: u64 = 36;

// That of a failure to which the system gives none.
const NOT_MOVED: u64 = 5;

const STDIN: i32 = 0;

// What a source is read from.
#[derive(Drop)]
pub enum Reader {
    Standard(Stdin),
    File(File),
}

impl Read for Reader {
    fn read(&mut self, buf: &mut [u8]) -> Result<usize, Error> {
        match self {
            Reader::Standard(stdin) => stdin.read(buf),
            Reader::File(file) => file.read(buf),
        }
    }
}

fn counted(errno: i32) -> u64
    ensures { 0 < result }
{
    if errno > 0 { errno as u64 } else { NOT_MOVED }
}

// The number of an error, above 0: 0 stands for a call that did not fail.
pub(crate) fn error_number(error: Error) -> u64
    ensures { 0 < result }
{
    match error.raw_os_error() {
        Some(errno) => counted(errno),
        None => NOT_MOVED,
    }
}

// Why the system refuses a file.
pub fn put_reason(page: &mut [u8], at: usize, errno: u64) -> usize
    ensures { Put page.old at (reason_text errno) page.new result }
{
    match errno {
        NO_FILE => put_bytes(page, at, b"no such file"),
        NO_PERMISSION => put_bytes(page, at, b"permission denied"),
        DIRECTORY => put_bytes(page, at, b"it is a directory"),
        LONG_NAME => put_bytes(page, at, b"the name is too long"),
        NOT_OPEN => put_bytes(page, at, b"it is not open"),
        _ => put_form(page, at, b"error number #", &[errno]),
    }
}

// A file's name, as the command line has it.
pub fn put_name<E: Env>(env: &E, page: &mut [u8], at: usize, argument: usize) -> usize
    ensures { Named argument page.old at page.new result }
{
    if argument == 0 {
        return put_bytes(page, at, b"standard input");
    }
    let mut space = io::buffer();
    let n = arguments::word(env, argument, &mut space);
    put_shown(page, at, &space[..n])
}

// Opens the file of a name, that of an argument; argument 0 and the name `-` are standard input. The reader that is
// lent is standard input, and becomes the file that is opened. A name that is no UTF-8 is taken for that of no file.
// A failure has the error's number.
pub fn open<R: Files<File = File>>(
    rt: &R,
    reader: &mut Reader,
    argument: usize,
    name: &[u8],
) -> Result<Source, u64>
    ensures { Opening argument name.now result }
{
    if argument == 0 {
        return Ok(input::begin(STDIN, 0));
    }
    if same(name, b"-") {
        return Ok(input::begin(STDIN, 0));
    }
    let Ok(path) = from_utf8(name) else {
        return Err(NO_FILE);
    };
    let file = File::open(rt, path).map_err(error_number)?;
    let fd = file.as_raw_fd();
    *reader = Reader::File(file);
    Ok(input::begin(fd, argument))
}
