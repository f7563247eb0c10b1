// The events of a trace one a line, each with the stamp of the sample that lists it, and notes of long gaps between.
use crate::lines::{end, put_numbers, say_numbers};
use decode::{Decoder, Listed};
use rig_lines::console::PAGE;
use rig_lines::store;
use trace::{PARTIAL, REPEATED_START, START, STOP};
use trace_gaps::{apart, is_long};

// What has been shown.
#[derive(Clone, Copy)]
pub(crate) struct Shown {
    // where the page goes on
    pub(crate) at: usize,
    // a byte after it is an address
    addressed: bool,
    // samples may be lost since the last START or STOP
    doubtful: bool,
    pub(crate) cut_bytes: u64,
    pub(crate) long_gaps: u64,
    // whether a byte was listed
    pub(crate) bytes: bool,
}

fn is_condition(event: u16) -> bool {
    (event == START) | (event == REPEATED_START) | (event == STOP)
}

// The usual gap inside a frame; outside none is judged.
pub(super) fn inside(framed: bool, usual: u64) -> u64 {
    if framed { usual } else { 0 }
}

impl Shown {
    fn new(at: usize) -> Shown {
        Shown {
            at,
            addressed: false,
            doubtful: false,
            cut_bytes: 0,
            long_gaps: 0,
            bytes: false,
        }
    }

    // What an event leaves behind.
    fn after(mut self, event: u16, at: usize) -> Shown {
        self.at = at;
        self.addressed = (event == START) | (event == REPEATED_START);
        self.bytes = self.bytes | (event < START);
        if event == PARTIAL {
            self.cut_bytes = self.cut_bytes.saturating_add(1);
        }
        if is_condition(event) {
            self.doubtful = false;
        }
        self
    }

    fn with_event(self, page: &mut [u8; PAGE], event: u16, stamp: u32) -> Shown {
        let doubts = self.doubtful & !is_condition(event);
        let stamped = put_numbers(page, self.at, b"#: ", &[stamp as u64]);
        let words = trace_text::show(page, stamped, event, self.addressed);
        let next = if doubts {
            end(page, words, b" doubtful")
        } else {
            end(page, words, b"")
        };
        self.after(event, next)
    }

    fn with_listed(self, page: &mut [u8; PAGE], listed: Listed, stamp: u32) -> Shown {
        match listed {
            Listed::Nothing => self,
            Listed::One(event) => self.with_event(page, event, stamp),
            Listed::Two(first, second) => {
                self.with_event(page, first, stamp)
                    .with_event(page, second, stamp)
            }
        }
    }

    // A gap, with the line of the sample that ends it, and the usual gap; 0: it is not judged.
    fn with_gap(
        mut self,
        page: &mut [u8; PAGE],
        from: u32,
        to: u32,
        line: u64,
        usual: u64,
    ) -> Shown {
        let gap = apart(from, to);
        if usual == 0 {
            return self;
        }
        if !is_long(gap, usual) {
            return self;
        }
        self.at = say_numbers(
            page,
            self.at,
            b"note: no sample from # to # (line #), # times the usual gap: samples may be lost there",
            &[from as u64, to as u64, line, gap as u64 / usual],
        );
        self.long_gaps = self.long_gaps.saturating_add(1);
        self.doubtful = true;
        self
    }
}

// Shows the events of a trace, whose usual gap inside frames is given.
pub(crate) fn show_all(
    page: &mut [u8; PAGE],
    at: usize,
    stamps: &[u32],
    levels: &[u8],
    lines: &[u64],
    usual: u64,
) -> Shown {
    let mut decoder = Decoder::idle();
    let mut shown = Shown::new(at);
    let mut last: u32 = 0;
    for (i, (&stamp, &level)) in stamps.iter().zip(levels).enumerate() {
        let line = store::line_at(lines, i);
        shown = shown.with_gap(page, last, stamp, line, inside(decoder.framed, usual));
        let step = decoder.step(level);
        shown = shown.with_listed(page, step.listed, stamp);
        decoder = step.decoder;
        last = stamp;
    }
    shown
}
