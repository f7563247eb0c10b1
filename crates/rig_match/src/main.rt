// rig_match, run by `rig match`: a capture held against a rehearsal, both as the other programs print them.
// The last line of output says how it went: `ok`, `look`, `refused` with a number, or `error`.
#![tactic(auto)]

mod book; // book.rt: how much of the rehearsal is kept
mod capture; // capture.rt: the lines of the capture
mod differences; // differences.rt: where a frame differs from what was rehearsed
mod ending; // ending.rt: what was not on the bus, and the last line
mod matching; // matching.rt: each frame held against the loads
mod phrase; // phrase.rt: words with marks for numbers, names and events
mod reading; // reading.rt: the input, line by line, and what is wrong with it
mod rehearsal; // rehearsal.rt: the lines of the rehearsal
mod reported; // reported.rt: the line of a frame
mod shown; // shown.rt: what the marks of a phrase stand for
mod words; // words.rt: messages and frames in words

use frame_match::span;
use rig_lines::arguments::find;
use rig_lines::console::{PAGE, flush, put_quoted};
use rig_lines::input::ROOM;
use std::env::FillError;
use std::io::Stdin;
use std::rt::Env;
use text::put_bytes;

// All of the input, then all of the frames.
fn run(stdin: &mut Stdin, page: &mut [u8; PAGE]) -> usize {
    let mut book = [0u32; book::ROW_ROOM];
    let mut events = [0u16; book::EVENT_ROOM];
    let mut names = [0u8; book::NAME_ROOM];
    let mut seen = [0u16; capture::EVENTS];
    let mut stamps = [0u64; capture::EVENTS];
    let mut piece = [0u8; PAGE];
    let mut line = [0u8; ROOM];
    let reading = reading::read_all(
        stdin,
        page,
        &mut piece,
        &mut line,
        &mut book,
        &mut events,
        &mut names,
        &mut seen,
        &mut stamps,
    );
    if reading.wrong.is_some() {
        return reading.at;
    }
    let lists = book::Lists {
        rows: reading.rows,
        events: &events,
        names: &names,
        seen: span(&seen, 0, reading.seen),
        stamps: &stamps,
    };
    matching::run(page, &mut book, lists, reading)
}

// Whatever the input is, no word stands after the command.
fn unexpected(page: &mut [u8; PAGE], word: &[u8]) -> usize {
    let error = put_bytes(page, 0, b"error unexpected ");
    let quoted = put_quoted(page, error, word);
    put_bytes(page, quoted, b" after match\n")
}

fn answer<E: Env>(env: &E, stdin: &mut Stdin, page: &mut [u8; PAGE]) {
    let mut space = io::buffer();
    let end = match find(env, 2, &mut space) {
        Err(FillError::NotPresent) => run(stdin, page),
        Ok(n) => unexpected(page, &space[..n]),
        Err(FillError::TooLong) => put_bytes(
            page,
            0,
            b"error an argument is longer than 4096 bytes\n",
        ),
    };
    flush(page, end);
}

fn main(rt: HostRuntime) {
    let mut stdin = rt.stdin();
    let mut page = [0u8; PAGE];
    answer(&rt, &mut stdin, &mut page);
}
