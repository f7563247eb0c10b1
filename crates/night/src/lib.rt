// The night run (02: Ask 14), over what a caller lends and over a table of modules by value: rounds of arbitrations of
// the messages not yet carried, until none is left.
#![tactic(auto)]

ghost use Rattle.arbitration_rules.specs.Reply.{asked};
ghost use Rattle.night.specs.Lent.{Nights};
ghost use Rattle.night.specs.Rehearsal.{Rehearses};

mod carried; // carried.rt: what a round carries, entered
mod contest; // contest.rt: one round, an arbitration of the messages that wait
mod lent; // lent.rt: what is put into a slice and a table that a caller lends
mod refusals; // refusals.rt: the first refusal of a night that applies
mod rounds; // rounds.rt: the rounds, until none is left
mod waiting; // waiting.rt: the messages that wait, put together anew

use arbitration_rules::MAX_MASTERS;
use laws::Refusal;
use usi::Usi;

// The reply, the round of each message from 1, 0 past them, and the table of modules as it then stands. A refused one
// has the refusal's number and place, 0 for all else, and the table as it was.
#[derive(Clone, Copy)]
pub struct NightRun {
    pub refusal: Refusal,
    // how many rounds there were
    pub count: usize,
    pub rounds: [u32; MAX_MASTERS],
    pub modules: [Usi; MAX_MASTERS],
}

// Rehearses a night: the messages lie in bytes one after the other, with the length of every part, message after
// message, how many parts each message has, and an acknowledge for each byte of the longest; and how long the caller's
// slice of rounds and its table are. Each round is an arbitration of the messages not yet carried, from power-up; the
// first entries of the table, one for each message, get its module as its own round left it. The rest stays, and at a
// refusal all of it.
pub fn rehearse(
    modules: [Usi; MAX_MASTERS],
    bytes: &[u8],
    parts: &[u32],
    counts: &[u32],
    acks: &[u8],
    rounds_room: usize,
    table_room: usize,
) -> NightRun
    ensures { Rehearses
        (asked bytes.now parts.now counts.now acks.now)
        rounds_room table_room modules result }
{
    let messages = match refusals::admitted(bytes, parts, counts, acks, rounds_room, table_room) {
        Ok(messages) => messages,
        Err(refusal) => {
            return NightRun {
                refusal,
                count: 0,
                rounds: [0u32; MAX_MASTERS],
                modules,
            };
        }
    };
    let lengths = messages.lengths;
    let count = messages.count;
    let ended = rounds::all_rounds(modules, bytes, parts, counts, acks, &lengths[..count]);
    let rounds = ended.rounds;
    let modules = ended.modules;
    NightRun {
        refusal: Refusal {
            number: 0,
            place: 0,
        },
        count: ended.count as usize,
        rounds,
        modules,
    }
}

// What a night over a lent table answers: the refusal, and how many rounds there were, 0 at a refusal.
#[derive(Clone, Copy)]
pub struct Reply {
    pub refusal: Refusal,
    pub count: usize,
}

// The same over a lent slice of rounds and a lent table. The first entries of each, one for each message, get its round
// from 1 and its module as that round left it; the rest stays, and at a refusal all of both. What the table held is not
// read.
pub fn night(
    bytes: &[u8],
    parts: &[u32],
    counts: &[u32],
    acks: &[u8],
    rounds: &mut [u32],
    table: &mut [Usi],
) -> Reply
    ensures { Nights
        (asked bytes.now parts.now counts.now acks.now)
        rounds.old table.old rounds.new table.new result }
{
    let ended = lent::settle(bytes, parts, counts, acks, rounds, table.len());
    lent::place(table, ended)
}
