// I2C arbitration: masters that start together on an idle bus, and who of them keeps it (01: the clash runner).
#![tactic(auto)]

ghost use Rattle.arbitration_rules.specs.Reply.{asked};
ghost use Rattle.arbitration.specs.Shown.{Arbitrates};

mod prepare; // prepare.rt: what a call is to do, decided before anything is written
mod reply; // reply.rt: what arbitrate answers, of a refusal and of a run
mod table; // table.rt: a pass over a table of modules, and a run

use arbitration_rules::MAX_MASTERS;
pub use arbitration_rules::{Arbitrated, Seat};
use prepare::Prepared;
use usi::Usi;

// Runs the arbitration of the messages that lie in bytes one after the other, with the length of every part, message
// after message, how many parts each message has, and an acknowledge for each byte of the longest. The reply is that of
// 01's steps 1 to 4, or the first refusal that applies. The table's first entries, one for each message, are the
// modules: what they held is not read, and they are stepped in place. The buffers take the carried bytes and the
// recorded levels. The rest of all three stays, and at a refusal all of them.
pub fn arbitrate(
    table: &mut [Usi],
    bytes: &[u8],
    parts: &[u32],
    counts: &[u32],
    acks: &[u8],
    carried: &mut [u8],
    levels: &mut [u8],
) -> Arbitrated
    ensures { Arbitrates
        (asked bytes.now parts.now counts.now acks.now)
        (record { table = table.old; carried = carried.old; levels = levels.old })
        (record { table = table.new; carried = carried.new; levels = levels.new }) result }
{
    let prepared = prepare::prepare(
        bytes,
        parts,
        counts,
        acks,
        table.len(),
        carried.len(),
        levels.len(),
    );
    let Prepared { first, rows } = match prepared {
        Ok(prepared) => prepared,
        Err(refusal) => return reply::refused(refusal),
    };
    let count = counts.len();
    let ended = table::run(table, count, first, rows, acks, carried, levels);
    reply::answered(ended, count)
}

// A rehearsal: the reply, and the table of modules as it then stands.
#[derive(Clone, Copy)]
pub struct Rehearsed {
    pub reply: Arbitrated,
    pub modules: [Usi; MAX_MASTERS],
}

// The same over a table by value, for callers that hold none to lend.
pub fn rehearse(
    mut modules: [Usi; MAX_MASTERS],
    bytes: &[u8],
    parts: &[u32],
    counts: &[u32],
    acks: &[u8],
    carried: &mut [u8],
    levels: &mut [u8],
) -> Rehearsed
    ensures { Arbitrates
        (asked bytes.now parts.now counts.now acks.now)
        (record { table = modules; carried = carried.old; levels = levels.old })
        (record { table = result.modules; carried = carried.new; levels = levels.new }) result.reply }
{
    let reply = arbitrate(&mut modules, bytes, parts, counts, acks, carried, levels);
    Rehearsed { reply, modules }
}
