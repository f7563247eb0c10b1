// rig: reads, sorts and draws bus traces, and steps a USI module (rig_clash rehearses loads).
// The last line of output says how it went: `ok`, `look`, `refused` with a number, or `error`.
#![tactic(auto)]

mod arguments; // arguments.rt: the words of the command line
mod decoding; // decoding.rt: the events of a trace
mod dumping; // dumping.rt: a trace drawn as a Value Change Dump
mod encoding; // encoding.rt: an event list drawn as a trace
mod hints; // hints.rt: what a file is, by its words
mod lines; // lines.rt: lines of output
mod reading; // reading.rt: a file, line by line
mod session; // session.rt: a module driven by commands
mod sorting; // sorting.rt: a capture in the order of its stamps
mod traced; // traced.rt: a trace read from its lines
mod trouble; // trouble.rt: what was not understood or could not be read

use arguments::{Arguments, Task};
use rig_lines::arguments::word;
use rig_lines::console::PAGE;
use rig_lines::files::Reader;
use rig_lines::input::Source;
use rig_lines::{console, files};
use std::fs::File;
use std::rt::{Env, Files};

// Runs a command on its file; answers how much then stands on the page.
fn run<E: Env>(
    env: &E,
    reader: &mut Reader,
    page: &mut [u8; PAGE],
    given: Arguments,
    source: Source,
) -> usize {
    match given.task {
        Task::Encode => encoding::run(env, reader, page, source, given.room),
        Task::Session => session::run(env, reader, page, source),
        _ => traced::run(env, reader, page, given, source),
    }
}

// The reader that is lent is standard input.
fn begin<R: Env + Files<File = File>>(rt: &R, reader: &mut Reader, page: &mut [u8; PAGE]) -> usize {
    let given = match arguments::parse(rt) {
        Ok(given) => given,
        Err(complaint) => return complaint.put(rt, page),
    };
    // argument 0 is standard input
    let file = given.file.unwrap_or(0);
    let mut name = io::buffer();
    let n = word(rt, file, &mut name);
    match files::open(rt, reader, file, &name[..n]) {
        Ok(source) => run(rt, reader, page, given, source),
        Err(errno) => trouble::file(rt, page, b"error cannot open ", file, errno),
    }
}

fn answer<R: Env + Files<File = File>>(rt: &R, reader: &mut Reader, page: &mut [u8; PAGE]) {
    let end = begin(rt, reader, page);
    console::flush(page, end);
}

fn main(rt: HostRuntime) {
    let mut reader = Reader::Standard(rt.stdin());
    let mut page = [0u8; PAGE];
    answer(&rt, &mut reader, &mut page);
}
