// What the rehearsal of a load comes to.
use crate::load::Load;
use crate::order::byte_at;
use crate::{kept, order, request};
use arbitration::Rehearsed;
use arbitration_rules::{MAX_LENGTH, MAX_MASTERS, Seat};
use load_text::{count_parts, master_of};
use usi::Usi;
use verdict::Verdict;

// The levels recorded for START, those for each byte, and those for each part's end, a repeated START or the STOP.
const START: usize = 2;

const BYTE: usize = 18;

const END: usize = 3;

// Room for the levels of any arbitration: every byte may be a part of its own.
pub(crate) const LEVELS: usize = START + (BYTE + END) * MAX_LENGTH;

// How many levels are recorded for so many bytes, in so many parts.
pub(crate) fn recorded(bytes: usize, parts: usize) -> usize {
    START + BYTE * bytes.min(MAX_LENGTH) + END * parts.min(MAX_LENGTH)
}

#[derive(Clone, Copy)]
pub(crate) struct Outcome {
    pub(crate) verdict: Verdict,
    // the load has no `expect`, or went as it says
    pub(crate) expected: bool,
    // the master that a refusal is about
    pub(crate) place: usize,
    // how many bytes were carried, the last of them, and how many levels were recorded
    pub(crate) count: usize,
    pub(crate) last: u8,
    pub(crate) levels: usize,
    // the first board that is still in, and the length of its message
    pub(crate) winner: usize,
    pub(crate) length: usize,
    // of each master
    pub(crate) seats: [Seat; MAX_MASTERS],
    pub(crate) modules: [Usi; MAX_MASTERS],
}

impl Outcome {
    pub(crate) fn is_refused(self) -> bool {
        is_refusal(self.verdict)
    }

    pub(crate) fn is_undecided(self) -> bool {
        matches!(self.verdict, Verdict::Undecided)
    }

    // The load is one to see.
    pub(crate) fn is_marked(self) -> bool {
        is_seen(self.verdict, self.expected)
    }

    // What became of a board that is not silent.
    pub(crate) fn seat_of(self, load: Load, board: usize) -> Seat {
        let master = master_of(load.silent, board);
        self.seats.get(master).copied().unwrap_or(self.seats[0])
    }

    pub(crate) fn module_of(self, load: Load, board: usize) -> Usi {
        let master = master_of(load.silent, board);
        self.modules.get(master).copied().unwrap_or(self.modules[0])
    }

    // A board is still in.
    pub(crate) fn contends(self, load: Load, board: usize) -> bool {
        let seat = self.seat_of(load, board);
        seat.contending & !load.is_silent(board)
    }

    // The boards that are not.
    pub(crate) fn others(self, load: Load) -> [bool; MAX_MASTERS] {
        let mut others = [true; MAX_MASTERS];
        for (board, other) in others.iter_mut().enumerate() {
            *other = !self.contends(load, board);
        }
        others
    }
}

pub(crate) fn is_refusal(verdict: Verdict) -> bool {
    matches!(verdict, Verdict::Refused(_))
}

// A load to see: all but one that was sent as expected.
pub(crate) fn is_seen(verdict: Verdict, expected: bool) -> bool {
    !matches!(verdict, Verdict::Sent(_)) | !expected
}

// The load went as its `expect` says, or has none.
fn as_expected(load: Load, outcome: Outcome) -> bool {
    if load.expect_line.is_none() {
        return true;
    }
    let whole = (load.length_of(load.winner) as u64 == load.length)
        & (outcome.count as u64 == load.carried);
    match outcome.verdict {
        Verdict::Sent(_) | Verdict::Cut(_) => whole & outcome.contends(load, load.winner),
        _ => false,
    }
}

// The first board that is still in.
fn winner(load: Load, outcome: Outcome) -> Option<usize> {
    (0..load.boards).find(|board| outcome.contends(load, *board))
}

fn last(carried: &[u8], count: usize) -> u8 {
    if count == 0 {
        return 0;
    }
    byte_at(carried, count - 1)
}

// With the first board that is still in, and what follows from its message.
fn with_winner(kept: &[u8], load: Load, mut outcome: Outcome) -> Outcome {
    let board = winner(load, outcome).unwrap_or(load.boards);
    let parts = kept::part(order::parts(kept, load, board), 0, outcome.count);
    let levels = recorded(outcome.count, count_parts(parts));
    outcome.winner = board;
    outcome.length = load.length_of(board) as usize;
    outcome.levels = levels;
    outcome.expected = as_expected(load, outcome);
    outcome
}

// The outcome of a rehearsal.
fn told(kept: &[u8], load: Load, done: Rehearsed, verdict: Verdict, carried: &[u8]) -> Outcome {
    let reply = done.reply;
    let seats = reply.seats;
    let modules = done.modules;
    let outcome = Outcome {
        verdict,
        expected: true,
        place: reply.refusal.place,
        count: reply.count,
        last: last(carried, reply.count),
        levels: 0,
        winner: 0,
        length: 0,
        seats,
        modules,
    };
    with_winner(kept, load, outcome)
}

// Corrections that the library refuses are a refusal of the load.
pub(crate) fn refused_first(load: Load, verdict: Verdict) -> Verdict {
    match load.number {
        Some(number) => Verdict::Refused(number),
        None => verdict,
    }
}

// Rehearses a load and judges it; so much of the room for its levels is lent.
pub(crate) fn of(
    kept: &[u8],
    load: Load,
    room: usize,
    carried: &mut [u8],
    levels: &mut [u8],
) -> Outcome {
    let table = [Usi::power_up(0, 0); MAX_MASTERS];
    let request = request::of(kept, load);
    let bytes = request.bytes();
    let parts = request.parts();
    let counts = request.counts();
    let acks = request::acks(kept, load);
    let lent = room.min(levels.len());
    let room = &mut levels[..lent];
    let done = arbitration::rehearse(table, bytes, parts, counts, acks, carried, room);
    let verdict = verdict::judge(done.reply, bytes, parts, counts, acks);
    told(kept, load, done, refused_first(load, verdict), carried)
}
