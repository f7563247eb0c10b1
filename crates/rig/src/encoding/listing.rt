// An event list read from its lines.
use super::statement;
use super::statement::Statement;
use crate::hints;
use crate::hints::Hint;
use crate::lines::suffix;
use crate::reading::{Progress, after};
use crate::trouble::{Fault, Wrong};
use rig_lines::console::PAGE;
use rig_lines::files::Reader;
use rig_lines::following::{Follower, follow};
use rig_lines::input::{ROOM, Source, Taken};
use rig_lines::numbers::{is_number, value};
use rig_lines::{input, store};
use std::rt::Env;
use text::{after_word, first_word};
use trace::MAX_SAMPLES;

// The longest event list. One that the library draws has fewer events than samples.
pub(crate) const EVENTS: usize = MAX_SAMPLES;

// No number above it is an event.
const LARGEST_EVENT: u64 = 65535;

const GAP: u32 = 50;

#[derive(Clone, Copy)]
pub(crate) struct Listing {
    pub(crate) progress: Progress,
    pub(crate) count: usize,
    pub(crate) start: u32,
    pub(crate) gap: u32,
    // a line of event numbers was read, and a line that is no sample of a trace
    numbers: bool,
    other: bool,
}

impl Listing {
    pub(crate) fn new(source: Source) -> Listing {
        Listing {
            progress: Progress::new(source),
            count: 0,
            start: 0,
            gap: GAP,
            numbers: false,
            other: false,
        }
    }

    // Whether what was read looks like a trace.
    pub(crate) fn like_trace(self) -> bool {
        self.numbers & !self.other
    }

    fn failed(mut self, wrong: Wrong) -> Listing {
        self.progress = self.progress.failed(wrong);
        self
    }

    fn with_start(mut self, start: u32) -> Listing {
        self.start = start;
        self
    }

    fn with_gap(mut self, gap: u32) -> Listing {
        self.gap = gap;
        self
    }

    // A line of events; whether it looks like a sample of a trace.
    fn with_kind(mut self, numbers: bool, sample: bool) -> Listing {
        self.numbers = self.numbers | numbers;
        self.other = self.other | !sample;
        self
    }

    fn with_event(mut self, events: &mut [u16; EVENTS], event: u16) -> Listing {
        if self.count < EVENTS {
            self.count = store::keep(events, self.count, event);
            return self;
        }
        self.failed(Fault::ManyEvents.at(0))
    }

    // The first of some words as an event's number.
    fn with_number(self, events: &mut [u16; EVENTS], words: &[u8]) -> Listing {
        let number = text::decimal(first_word(words));
        if is_number(number) {
            return self.with_event(events, value(number).min(LARGEST_EVENT) as u16);
        }
        self.failed(Fault::NoEvent.at(words.len()))
    }

    fn with_numbers(self, events: &mut [u16; EVENTS], words: &[u8]) -> Listing {
        let mut listing = self;
        let mut rest = words;
        for _ in 0..words.len() {
            if !listing.progress.more | (first_word(rest).len() == 0) {
                return listing;
            }
            listing = listing.with_number(events, rest);
            rest = after_word(rest);
        }
        listing
    }

    // What a line says.
    fn with_line(self, events: &mut [u16; EVENTS], line: &[u8]) -> Listing {
        match statement::parse(line) {
            Ok(Statement::Nothing) => self,
            Ok(Statement::Start(start)) => self.with_start(start),
            Ok(Statement::Gap(gap)) => self.with_gap(gap),
            Ok(Statement::Event(event)) => self.with_kind(false, false).with_event(events, event),
            Ok(Statement::Numbers(left, sample)) => {
                self.with_kind(true, sample)
                    .with_numbers(events, suffix(line, left))
            }
            Err(wrong) => self.failed(wrong),
        }
    }

    // Follows what was taken.
    fn followed(mut self, events: &mut [u16; EVENTS], progress: Progress, line: &[u8]) -> Listing {
        self.progress = progress;
        if !progress.more {
            return self;
        }
        self.with_line(events, input::content(line, progress.length))
    }

    // A hint where the line, or the list, looks like another file's.
    fn hint(self, fault: Fault, words: &[u8]) -> Option<Hint> {
        match fault {
            Fault::NoEvent => hints::loads(first_word(words)),
            Fault::ManyEvents => hints::trace(self.like_trace()),
            _ => None,
        }
    }

    pub(crate) fn complain<E: Env>(
        self,
        env: &E,
        page: &mut [u8; PAGE],
        line: &[u8; ROOM],
        wrong: Wrong,
    ) -> usize {
        let words = input::content(line, self.progress.length);
        let hint = self.hint(wrong.fault, words);
        self.progress.complain(env, page, line, wrong, hint)
    }
}

// Where the events of a list are kept.
#[derive(Drop)]
struct Events<'a> {
    events: &'a mut [u16; EVENTS],
}

impl Follower<Listing> for Events<'_> {
    ghost says = { λ state from. Unit {0} };

    ghost step = { λ before state taken line result after. Unit {0} };

    fn next(&self, listing: Listing) -> Option<Source> {
        listing.progress.next()
    }

    fn after(&mut self, listing: Listing, taken: Taken, line: &[u8]) -> Listing {
        listing.followed(self.events, after(taken), line)
    }
}

pub(crate) fn read_all(
    reader: &mut Reader,
    begun: Listing,
    piece: &mut [u8; PAGE],
    line: &mut [u8; ROOM],
    events: &mut [u16; EVENTS],
) -> Listing {
    follow(reader, piece, line, begun, &mut Events { events })
}
