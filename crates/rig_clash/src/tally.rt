// How the loads went, counted over all files, and the last two lines.
use crate::kept::ROOM;
use crate::phrase::{begin_numbers, put_front, put_numbers};
use crate::seen;
use rig_lines::console::PAGE;
use text::{put_byte, put_bytes};
use verdict::Verdict;

#[derive(Clone, Copy)]
pub(crate) struct Tally {
    pub(crate) loads: u64,
    // sent as expected, cut, undecided, sent and not as expected, refused, in error
    sent: u64,
    cut: u64,
    undecided: u64,
    unexpected: u64,
    refused: u64,
    broken: u64,
    // rehearsed without an ack line
    unacked: u64,
    // with corrections, and not in error
    corrected: u64,
    faults: u64,
    // the number of the first refusal
    number: u8,
    // loads to see whose names are not kept
    others: u64,
}

pub(crate) fn none() -> Tally {
    Tally {
        loads: 0,
        sent: 0,
        cut: 0,
        undecided: 0,
        unexpected: 0,
        refused: 0,
        broken: 0,
        unacked: 0,
        corrected: 0,
        faults: 0,
        number: 0,
        others: 0,
    }
}

impl Tally {
    pub(crate) fn with_load(mut self) -> Tally {
        self.loads = self.loads.saturating_add(1);
        self
    }

    // A load that is only read.
    pub(crate) fn without_load(mut self) -> Tally {
        self.loads = self.loads.saturating_sub(1);
        self
    }

    pub(crate) fn with_fault(mut self) -> Tally {
        self.faults = self.faults.saturating_add(1);
        self
    }

    pub(crate) fn with_broken(mut self) -> Tally {
        self.broken = self.broken.saturating_add(1);
        self
    }

    fn with_refusal(mut self, number: u8) -> Tally {
        if self.refused == 0 {
            self.number = number;
        }
        self.refused = self.refused.saturating_add(1);
        self
    }

    fn with_sent(mut self, expected: bool) -> Tally {
        self.sent = counted(self.sent, expected);
        self.unexpected = counted(self.unexpected, !expected);
        self
    }

    // A load that was rehearsed.
    pub(crate) fn with_verdict(mut self, verdict: Verdict, expected: bool) -> Tally {
        match verdict {
            Verdict::Refused(number) => self.with_refusal(number),
            Verdict::Sent(_) => self.with_sent(expected),
            Verdict::Undecided => {
                self.undecided = self.undecided.saturating_add(1);
                self
            }
            Verdict::Cut(_) => {
                self.cut = self.cut.saturating_add(1);
                self
            }
        }
    }

    // It may have had no ack line, where it was not refused, and corrections may have been laid over it.
    pub(crate) fn with_notes(mut self, unacked: bool, corrected: bool) -> Tally {
        self.unacked = counted(self.unacked, unacked);
        self.corrected = counted(self.corrected, corrected);
        self
    }

    pub(crate) fn has_fault(self) -> bool {
        self.faults > 0
    }

    // A load to see: its name is kept for the last line but one, as long as there is room.
    pub(crate) fn with_seen(mut self, kept: &mut [u8; ROOM]) -> Tally {
        if (self.others > 0) | !seen::fits(kept) {
            self.others = self.others.saturating_add(1);
            return self;
        }
        seen::keep(kept);
        self
    }

    // Something needs a look: a message cut, undecided or not as expected.
    fn needs_look(self) -> bool {
        (self.cut > 0) | (self.undecided > 0) | (self.unexpected > 0)
    }

    // How it went: with an error, with a refusal, with something to look at, or well.
    fn words(self) -> &'static [u8] {
        if (self.broken > 0) | (self.faults > 0) {
            return b"error ?# load~: ";
        }
        if self.refused > 0 {
            return b"refused #: # load~: ";
        }
        if self.needs_look() {
            return b"look ?# load~: ";
        }
        b"ok ?# load~: "
    }
}

// One more, where it counts.
fn counted(count: u64, counts: bool) -> u64 {
    if counts {
        return count.saturating_add(1);
    }
    count
}

// An item of the list that begins at a position, where there is something to count.
fn put_item(page: &mut [u8; PAGE], from: usize, at: usize, count: u64, words: &[u8]) -> usize {
    if count == 0 {
        return at;
    }
    let comma: &[u8] = if at > from { b", " } else { b"" };
    let next = put_bytes(page, at, comma);
    put_numbers(page, next, words, &[count])
}

// What else there was, each with its words.
fn put_items(page: &mut [u8; PAGE], from: usize, tally: Tally) -> usize {
    let items: [(u64, &[u8]); 9] = [
        (tally.sent, b"# sent"),
        (tally.cut, b"# cut"),
        (tally.undecided, b"# undecided"),
        (tally.unexpected, b"# not as expected"),
        (tally.refused, b"# refused"),
        (tally.broken, b"# in error"),
        (tally.unacked, b"# without an ack line"),
        (tally.corrected, b"# corrected"),
        (tally.faults, b"# fault~ outside the loads"),
    ];
    let mut next = from;
    for (count, words) in items {
        next = put_item(page, from, next, count, words);
    }
    next
}

// The last line: a word, what was rehearsed, and what else there was.
pub(crate) fn put_last(page: &mut [u8; PAGE], at: usize, tally: Tally) -> usize {
    let numbers = [tally.number as u64, tally.loads];
    let from = begin_numbers(page, at, tally.words(), &numbers);
    let end = put_items(page, from, tally);
    put_byte(page, end, b'\n')
}

// The line before it, where there are loads to see.
pub(crate) fn put_seen(
    page: &mut [u8; PAGE],
    at: usize,
    kept: &[u8],
    tally: Tally,
    shown: bool,
) -> usize {
    let names = seen::names(kept);
    if (names.len() == 0) | !shown {
        return at;
    }
    let word = put_front(page, at, kept, b"see", &[]);
    let all = put_bytes(page, word, names);
    if tally.others == 0 {
        return put_byte(page, all, b'\n');
    }
    put_numbers(page, all, b" and # more\n", &[tally.others])
}
