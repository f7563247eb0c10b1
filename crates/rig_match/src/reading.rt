// The input, line by line: the rehearsal up to its last line, then the capture.
use crate::book::{EVENT_ROOM, NAME_ROOM, ROW_ROOM};
use crate::capture::EVENTS;
use crate::{book, capture, rehearsal};
use rig_lines::console::{PAGE, begin, put_form, put_quoted};
use rig_lines::files::put_reason;
use rig_lines::following::{Follower, follow};
use rig_lines::input;
use rig_lines::input::{Line, ROOM, Source, Taken};
use std::io::Stdin;
use text::{first_word, put_byte, put_bytes};

const STDIN: i32 = 0;

// How the rehearsal ended: as its last line says.
#[derive(Clone, Copy)]
pub(crate) enum Verdict {
    Ok,
    Look,
    // by a number
    Refused(u64),
    Error,
}

// What is wrong with the input.
#[derive(Clone, Copy)]
pub(crate) enum Wrong {
    OpenRehearsal,
    OpenCapture,
    Full,
    TooLong,
    NoText,
    Crowded,
    Strange,
    Unreadable,
}

impl Wrong {
    // The words of the last line; `#` stands for the line that was read last.
    fn words(self) -> &'static [u8] {
        match self {
            Wrong::OpenRehearsal => b"error the rehearsal has no last line",
            Wrong::OpenCapture => b"error the capture has no last line",
            Wrong::Full => b"error the rehearsal is too long to be kept: name a load",
            Wrong::TooLong => b"error line #: longer than 4096 bytes",
            Wrong::NoText => b"error line #: a byte that is no text",
            Wrong::Crowded => b"error line #: more than 4096 events",
            Wrong::Strange => b"error line #: expected what rig decode prints, not ",
            Wrong::Unreadable => b"error cannot read standard input: ",
        }
    }
}

// How far the input is read, and how much of it is kept.
#[derive(Clone, Copy)]
pub(crate) struct Reading {
    source: Source,
    // how many bytes the line taken last has
    length: usize,
    // where the page goes on
    pub(crate) at: usize,
    // rows, events and bytes of names of the rehearsal
    pub(crate) rows: usize,
    pub(crate) events: usize,
    pub(crate) names: usize,
    // the row of the load that is being read
    pub(crate) load: usize,
    // events and long gaps of the capture
    pub(crate) seen: usize,
    pub(crate) gaps: u64,
    // how the rehearsal ended, once it has, and how many faults it has
    pub(crate) verdict: Option<Verdict>,
    pub(crate) faults: u64,
    pub(crate) more: bool,
    pub(crate) wrong: Option<Wrong>,
}

impl Reading {
    fn new() -> Reading {
        Reading {
            source: input::begin(STDIN, 0),
            length: 0,
            at: 0,
            rows: 0,
            events: 0,
            names: 0,
            load: 0,
            seen: 0,
            gaps: 0,
            verdict: None,
            faults: 0,
            more: true,
            wrong: None,
        }
    }

    pub(crate) fn failed(mut self, wrong: Wrong) -> Reading {
        self.more = false;
        self.wrong = Some(wrong);
        self
    }

    // Follows what taking a line found: its length, or what is wrong with it.
    fn after(mut self, taken: Taken) -> Reading {
        self.source = taken.source;
        self.length = 0;
        match taken.line {
            Line::Text(n) => {
                self.length = n;
                self
            }
            Line::TooLong => self.failed(Wrong::TooLong),
            Line::NoText => self.failed(Wrong::NoText),
            Line::Failed => self.failed(Wrong::Unreadable),
            Line::End if self.verdict.is_some() => self.failed(Wrong::OpenCapture),
            Line::End => self.failed(Wrong::OpenRehearsal),
        }
    }

    // More is to be kept than there is room for.
    fn checked(self) -> Reading {
        if (self.rows > book::ROWS) | (self.events > book::EVENTS) | (self.names > book::NAMES) {
            return self.failed(Wrong::Full);
        }
        self
    }

    // A line is passed on, and the page goes on after it.
    fn passed(mut self, at: usize) -> Reading {
        self.at = at;
        if self.verdict.is_some() {
            self.gaps = self.gaps.saturating_add(1);
        } else {
            self.faults = self.faults.saturating_add(1);
        }
        self
    }
}

// A line that is passed on: a fault of the rehearsal, or a long gap of the capture.
fn is_passed(verdict: Option<Verdict>, line: &[u8]) -> bool {
    match first_word(line) {
        b"note:" => verdict.is_some(),
        b"!" => verdict.is_none() & !rehearsal::is_inner(line),
        _ => false,
    }
}

// Follows the line taken last.
fn with_line(
    page: &mut [u8; PAGE],
    reading: Reading,
    line: &[u8],
    book: &mut [u32; ROW_ROOM],
    events: &mut [u16; EVENT_ROOM],
    names: &mut [u8; NAME_ROOM],
    seen: &mut [u16; EVENTS],
    stamps: &mut [u64; EVENTS],
) -> Reading {
    let words = input::content(line, reading.length);
    if is_passed(reading.verdict, words) {
        let start = begin(page, reading.at);
        let end = put_bytes(page, start, book::text(line, 0, reading.length));
        return reading.passed(put_byte(page, end, b'\n'));
    }
    if reading.verdict.is_some() {
        return capture::with_line(reading, words, seen, stamps);
    }
    let next = rehearsal::with_line(reading, book, events, names, words);
    next.checked()
}

// The word that was met, or why the input cannot be read.
fn put_detail(page: &mut [u8; PAGE], at: usize, line: &[u8], reading: Reading) -> usize {
    match reading.wrong {
        Some(Wrong::Strange) => {
            put_quoted(page, at, first_word(input::content(line, reading.length)))
        }
        Some(Wrong::Unreadable) => put_reason(page, at, reading.source.errno),
        _ => at,
    }
}

// Says what is wrong, if anything is.
fn ended(page: &mut [u8; PAGE], line: &[u8], so_far: Reading) -> Reading {
    let mut reading = so_far;
    let Some(wrong) = reading.wrong else {
        return reading;
    };
    let start = begin(page, reading.at);
    let front = put_form(page, start, wrong.words(), &[reading.source.line]);
    let end = put_detail(page, front, line, reading);
    reading.at = put_byte(page, end, b'\n');
    reading
}

// The page that lines are passed on by, and where the rehearsal and the capture are kept.
#[derive(Drop)]
struct Kept<'a> {
    page: &'a mut [u8; PAGE],
    book: &'a mut [u32; ROW_ROOM],
    events: &'a mut [u16; EVENT_ROOM],
    names: &'a mut [u8; NAME_ROOM],
    seen: &'a mut [u16; EVENTS],
    stamps: &'a mut [u64; EVENTS],
}

impl Follower<Reading> for Kept<'_> {
    ghost says = { λ state from. Unit {0} };

    ghost step = { λ before state taken line result after. Unit {0} };

    fn next(&self, reading: Reading) -> Option<Source> {
        reading.more.then_some(reading.source)
    }

    fn after(&mut self, reading: Reading, taken: Taken, line: &[u8]) -> Reading {
        with_line(
            self.page,
            reading.after(taken),
            line,
            self.book,
            self.events,
            self.names,
            self.seen,
            self.stamps,
        )
    }
}

// All of the input.
pub(crate) fn read_all(
    stdin: &mut Stdin,
    page: &mut [u8; PAGE],
    piece: &mut [u8; PAGE],
    line: &mut [u8; ROOM],
    book: &mut [u32; ROW_ROOM],
    events: &mut [u16; EVENT_ROOM],
    names: &mut [u8; NAME_ROOM],
    seen: &mut [u16; EVENTS],
    stamps: &mut [u64; EVENTS],
) -> Reading {
    let mut kept = Kept {
        page,
        book,
        events,
        names,
        seen,
        stamps,
    };
    let reading = follow(stdin, piece, line, Reading::new(), &mut kept);
    ended(kept.page, line, reading)
}
