// Lines of a file or of standard input, however many, read piece by piece.
ghost use Rattle.std.specs.Prelude.{◌≡◌, ◌≤◌, ◌↔◌, IsTrue, EachIndex, eqb, length, not, slice_index, take, take_while};
ghost use Rattle.rig_lines.specs.Bytes.{plain};
ghost use Rattle.rig_lines.specs.Input.{begun, next_number, after_read as read_after, Refilled, NextByte};
ghost use Rattle.rig_lines.specs.Input.{supplied_with, ended_with, Filled};
ghost use Rattle.rig_lines.specs.Input.{judged_line, judged_last, Took, content_of};

use crate::console::is_control;
use crate::numbers::more;
use crate::{files, parts};
use std::io::Read;
use text::put_byte;

// The longest line, and room for it with one byte more, which shows that a line is longer.
pub const LONGEST: usize = 4096;

pub const ROOM: usize = LONGEST + 1;

const NEWLINE: u8 = 0x0a;

const TAB: u8 = 0x09;

const RETURN: u8 = 0x0d;

// Where the lines come from, and how far they are read.
#[derive(Clone, Copy)]
pub struct Source {
    pub fd: i32,
    // the argument that names the file; 0: standard input
    pub argument: usize,
    // the part of the last piece that is still to be read
    pub at: usize,
    pub end: usize,
    // the number of the line taken last
    pub line: u64,
    // the input has ended or failed; the error's number where it failed, else 0
    pub done: bool,
    pub errno: u64,
}

// What taking a line finds: its length, or why there is none.
#[derive(Clone, Copy)]
pub enum Line {
    Text(usize),
    TooLong,
    NoText,
    End,
    Failed,
}

#[derive(Clone, Copy)]
pub struct Taken {
    pub line: Line,
    pub source: Source,
}

#[derive(Clone, Copy)]
enum Next {
    Byte(u8, Source),
    End(Source),
}

pub fn begin(fd: i32, argument: usize) -> Source
    ensures { result ≡ begun fd argument }
{
    Source {
        fd,
        argument,
        at: 0,
        end: 0,
        line: 0,
        done: false,
        errno: 0,
    }
}

// A source with a new piece of n bytes; none ends the input.
fn after_read(mut from: Source, n: usize, errno: u64) -> Source
    ensures { result ≡ read_after n errno from }
{
    from.at = 0;
    from.end = n;
    if n == 0 {
        from.done = true;
        from.errno = errno;
    }
    from
}

// Reads once: how many bytes came, and the error's number where the read failed, else 0.
fn read_once<R: Read>(reader: &mut R, piece: &mut [u8]) -> (usize, u64)
    ensures { result.0 ≤ length piece.new }
{
    match reader.read(piece) {
        Ok(count) => (count, 0),
        Err(error) => (0, files::error_number(error)),
    }
}

// Reads once, where the last piece is used up and the input has not ended.
fn refilled<R: Read>(reader: &mut R, piece: &mut [u8], from: Source) -> Source
    ensures { Refilled piece.old from piece.new result }
{
    if from.at < from.end {
        return from;
    }
    if from.done {
        return from;
    }
    let (count, errno) = read_once(reader, piece);
    after_read(from, count, errno)
}

// A source whose input ends with a piece of n bytes.
fn ended(mut from: Source, n: usize, errno: u64) -> Source
    ensures { result ≡ ended_with n errno from }
{
    from.at = 0;
    from.end = n;
    from.done = true;
    from.errno = errno;
    from
}

// A source with a piece of n bytes.
fn supplied(mut from: Source, n: usize) -> Source
    ensures { result ≡ supplied_with n from }
{
    from.at = 0;
    from.end = n;
    from
}

// Reads until the piece is full or the input has ended, where the last piece is used up: a pipe hands on what it has,
// and what begins the input can then be looked at however it came.
pub fn fill<R: Read>(reader: &mut R, piece: &mut [u8], from: Source) -> Source
    ensures { Filled piece.old from piece.new result }
{
    if from.at < from.end {
        return from;
    }
    let mut n: usize = 0;
    while n < piece.len() {
        let (count, errno) = read_once(reader, &mut piece[n..]);
        if count == 0 {
            return ended(from, n, errno);
        }
        n += count;
    }
    supplied(from, n)
}

fn next_byte<R: Read>(reader: &mut R, piece: &mut [u8], from: Source) -> Next
    ensures { NextByte piece.old from piece.new result }
{
    let mut after = refilled(reader, piece, from);
    let at = after.at;
    if at < after.end {
        if at < piece.len() {
            after.at = at + 1;
            return Next::Byte(piece[at], after);
        }
    }
    Next::End(after)
}

fn is_plain(b: u8) -> bool
    ensures { result ≡ plain b }
{
    !(is_control(b) & (b != TAB) & (b != RETURN))
}

fn is_text(line: &[u8]) -> bool
    ensures { IsTrue result ↔ EachIndex line.now (λ k. IsTrue (plain (slice_index line.now k))) }
{
    line.iter().all(|b| is_plain(*b))
}

// What a line of n bytes is.
fn judged(line: &[u8], n: usize) -> Line
    ensures { result ≡ judged_line line.now n }
{
    if n >= line.len() {
        return Line::TooLong;
    }
    if !is_text(&line[..n]) {
        return Line::NoText;
    }
    Line::Text(n)
}

// What the end of the input leaves: a last line without a newline, or none.
fn judged_last(line: &[u8], n: usize, errno: u64) -> Line
    ensures { result ≡ judged_last errno line.now n }
{
    if errno != 0 {
        return Line::Failed;
    }
    if n == 0 {
        return Line::End;
    }
    judged(line, n)
}

fn counted(mut from: Source) -> Source
    ensures { result ≡ next_number from }
{
    from.line = more(from.line);
    from
}

// Takes the next line whole, also one that is too long.
// Nothing says that a line ends, so turns are counted up to a number that no line uses up.
pub fn next_line<R: Read>(reader: &mut R, piece: &mut [u8], line: &mut [u8], from: Source) -> Taken
    ensures { Took piece.old line.old from piece.new line.new result }
{
    let mut from = counted(from);
    let mut n: usize = 0;
    for _ in 0..u64::MAX {
        match next_byte(reader, piece, from) {
            Next::End(after) => {
                let last = judged_last(line, n, after.errno);
                return Taken {
                    line: last,
                    source: after,
                };
            }
            Next::Byte(b, after) => {
                if b == NEWLINE {
                    let whole = judged(line, n);
                    return Taken {
                        line: whole,
                        source: after,
                    };
                }
                n = put_byte(line, n, b);
                from = after;
            }
        }
    }
    Taken {
        line: Line::TooLong,
        source: from,
    }
}

// Where a comment begins, or the length of a line that has none.
fn comment_at(line: &[u8]) -> usize
    ensures value { result ≡ length (take_while (λ b. not (eqb b 0x23)) line.now) }
    ensures upper_bound { result ≤ length line.now }
{
    line.iter().take_while(|b| **b != b'#').count()
}

// The first n bytes of a line, up to a comment.
pub fn content(line: &[u8], n: usize) -> &[u8]
    ensures { result.now ≡ content_of (take n line.now) }
{
    let part = parts::bytes(n, line);
    let whole = &line[..part];
    let end = comment_at(whole);
    &whole[..end]
}
