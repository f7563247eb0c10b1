// What the night of a load comes to: the losers try again, until every message is carried.
use crate::load::Load;
use crate::outcome::refused_first;
use crate::request;
use arbitration_rules::MAX_MASTERS;
use load_text::master_of;
use night::NightRun;
use usi::Usi;
use verdict::Verdict;

#[derive(Clone, Copy)]
pub(crate) struct Night {
    // refused, or sent, in so many rounds
    pub(crate) verdict: Verdict,
    // the master that a refusal is about
    pub(crate) place: usize,
    pub(crate) count: usize,
    // the round of each master, from 1
    rounds: [u32; MAX_MASTERS],
}

impl Night {
    // The round that carries a board's message, unless it is silent.
    fn round_of(self, load: Load, board: usize) -> Option<usize> {
        if load.is_silent(board) {
            return None;
        }
        let round = self.rounds.get(master_of(load.silent, board))?;
        Some(*round as usize)
    }

    // The boards that a round does not carry.
    pub(crate) fn others(self, load: Load, round: usize) -> [bool; MAX_MASTERS] {
        let mut others = [true; MAX_MASTERS];
        for (board, other) in others.iter_mut().enumerate() {
            *other = self.round_of(load, board) != Some(round);
        }
        others
    }

    // The load has no `expect`, or the first round went as it says.
    pub(crate) fn is_expected(self, load: Load) -> bool {
        let length = load.length_of(load.winner) as u64;
        let first = self.round_of(load, load.winner) == Some(1);
        load.expect_line.is_none() | (first & (load.carried == length) & (load.length == length))
    }
}

// What the library says.
fn told(load: Load, done: NightRun) -> Night {
    let rounds = done.rounds;
    Night {
        verdict: refused_first(load, verdict_of(done.refusal.number, done.count)),
        place: done.refusal.place,
        count: done.count,
        rounds,
    }
}

fn verdict_of(number: u8, count: usize) -> Verdict {
    if number > 0 {
        return Verdict::Refused(number);
    }
    Verdict::Sent(count)
}

// Rehearses the night of a load.
pub(crate) fn of(kept: &[u8], load: Load) -> Night {
    let table = [Usi::power_up(0, 0); MAX_MASTERS];
    let request = request::of(kept, load);
    let done = night::rehearse(
        table,
        request.bytes(),
        request.parts(),
        request.counts(),
        request::acks(kept, load),
        MAX_MASTERS,
        MAX_MASTERS,
    );
    told(load, done)
}
