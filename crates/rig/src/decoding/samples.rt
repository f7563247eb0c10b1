// A trace, one sample a line: stamp and level in decimal.
use super::captured::TEXT;
use crate::hints;
use crate::reading::{Progress, after};
use crate::trouble::{Fault, Wrong};
use rig_lines::console::PAGE;
use rig_lines::files::Reader;
use rig_lines::following::{Follower, follow};
use rig_lines::input::{ROOM, Source, Taken};
use rig_lines::numbers::{is_number, value};
use rig_lines::{input, store};
use std::rt::Env;
use text::{after_word, first_word};
use trace::{MAX_SAMPLES, MAX_STAMP};

// One sample more than a trace may have, so that the library sees a trace that is too long.
const SAMPLES: usize = MAX_SAMPLES + 1;

// The same of a capture that is thinned first.
pub(crate) const CAPTURE: usize = 65536 + 1;

const LARGEST_LEVEL: u64 = 255;

#[derive(Clone, Copy)]
pub(crate) struct Reading {
    pub(crate) progress: Progress,
    // how many samples are read at most
    limit: usize,
    pub(crate) stamps: usize,
    pub(crate) levels: usize,
    // the last sample
    stamp: u32,
    level: u8,
    // the first line with a stamp and no level
    pub(crate) unpaired: u64,
}

// What a line says.
#[derive(Clone, Copy)]
enum Sample {
    Nothing,
    Both(u32, u8),
    Stamp(u32),
}

// What a line says that has a stamp first.
fn parse_rest(line: &[u8], stamp: u64, rest: &[u8]) -> Result<Sample, Wrong> {
    let second = first_word(rest);
    let number = text::decimal(second);
    let level = value(number);
    if !first_word(after_word(rest)).is_empty() {
        return Err(Fault::NoSample.at(after_word(rest).len()));
    }
    if !is_number(number) & !second.is_empty() {
        return Err(Fault::NoSample.at(rest.len()));
    }
    if stamp > MAX_STAMP {
        return Err(Fault::LargeStamp.at(line.len()));
    }
    if second.is_empty() {
        return Ok(Sample::Stamp(stamp as u32));
    }
    if level > LARGEST_LEVEL {
        return Err(Fault::LargeLevel.at(rest.len()));
    }
    Ok(Sample::Both(stamp as u32, level as u8))
}

fn parse(line: &[u8]) -> Result<Sample, Wrong> {
    let word = first_word(line);
    if matches!(word, b"" | b"ok" | b"look") {
        return Ok(Sample::Nothing);
    }
    let stamp = text::decimal(word);
    if !is_number(stamp) {
        return Err(Fault::NoSample.at(line.len()));
    }
    parse_rest(line, value(stamp), after_word(line))
}

fn counted(count: usize) -> usize {
    if count < CAPTURE { count + 1 } else { count }
}

impl Reading {
    // A capture that is thinned is longer.
    pub(crate) fn new(source: Source, thin: bool) -> Reading {
        Reading {
            progress: Progress::new(source),
            limit: if thin { CAPTURE } else { SAMPLES },
            stamps: 0,
            levels: 0,
            stamp: 0,
            level: 0,
            unpaired: 0,
        }
    }

    fn failed(mut self, wrong: Wrong) -> Reading {
        self.progress = self.progress.failed(wrong);
        self
    }

    fn with_stamp(mut self, stamp: u32) -> Reading {
        self.stamp = stamp;
        self.stamps = counted(self.stamps);
        if self.stamps == CAPTURE {
            return self.failed(Fault::ManySamples.at(0));
        }
        if self.stamps == self.limit {
            self.progress = self.progress.ended();
        }
        self
    }

    fn with_level(mut self, level: u8) -> Reading {
        self.level = level;
        self.levels = counted(self.levels);
        self
    }

    fn unpaired(mut self) -> Reading {
        if self.unpaired == 0 {
            self.unpaired = self.progress.source.line;
        }
        self
    }

    // What a line leaves behind.
    fn with_line(mut self, progress: Progress, line: &[u8]) -> Reading {
        self.progress = progress;
        if !progress.more {
            return self;
        }
        match parse(input::content(line, progress.length)) {
            Ok(Sample::Nothing) => self,
            Ok(Sample::Both(stamp, level)) => self.with_stamp(stamp).with_level(level),
            Ok(Sample::Stamp(stamp)) => self.with_stamp(stamp).unpaired(),
            Err(wrong) => self.failed(wrong),
        }
    }

    // Says what is wrong, with a hint where the line is none of a trace.
    pub(crate) fn complain<E: Env>(
        self,
        env: &E,
        page: &mut [u8; PAGE],
        line: &[u8; ROOM],
        wrong: Wrong,
    ) -> usize {
        let progress = self.progress;
        let hint = match wrong.fault {
            Fault::NoSample => hints::other(first_word(input::content(line, progress.length))),
            _ => None,
        };
        progress.complain(env, page, line, wrong, hint)
    }
}

// Where samples, and the lines of their stamps, are kept: what a line says comes after the samples before it.
#[derive(Drop)]
struct Samples<'a> {
    stamps: &'a mut [u32; CAPTURE],
    levels: &'a mut [u8; CAPTURE],
    lines: &'a mut [u64; CAPTURE],
}

impl Follower<Reading> for Samples<'_> {
    ghost says = { λ state from. Unit {0} };

    ghost step = { λ before state taken line result after. Unit {0} };

    fn next(&self, reading: Reading) -> Option<Source> {
        reading.progress.next()
    }

    fn after(&mut self, reading: Reading, taken: Taken, line: &[u8]) -> Reading {
        let next = reading.with_line(after(taken), line);
        store::keep(self.stamps, reading.stamps, next.stamp);
        store::keep(self.levels, reading.levels, next.level);
        store::keep(self.lines, reading.stamps, next.progress.source.line);
        next
    }
}

pub(crate) fn read_all(
    reader: &mut Reader,
    begun: Reading,
    piece: &mut [u8; TEXT],
    line: &mut [u8; ROOM],
    stamps: &mut [u32; CAPTURE],
    levels: &mut [u8; CAPTURE],
    lines: &mut [u64; CAPTURE],
) -> Reading {
    let mut samples = Samples {
        stamps,
        levels,
        lines,
    };
    follow(reader, piece, line, begun, &mut samples)
}
