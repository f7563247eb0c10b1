// What a call is to do, decided before anything is written: the run's beginning and its messages as rows, or a refusal.
ghost use Rattle.std.specs.Prelude.{◌≡◌};
ghost use Rattle.arbitration_rules.specs.Reply.{asked};
ghost use Rattle.arbitration.specs.Prepared.{Short, prepared};

use arbitration_messages::Messages;
use arbitration_rules::{MAX_LENGTH, MAX_MASTERS};
use arbitration_run::Sequencer;
use laws::{Refusal, refused};

// The sequencer before its first turn, and the messages as rows, one for each master.
#[derive(Clone, Copy)]
pub(crate) struct Prepared {
    pub(crate) first: Sequencer,
    pub(crate) rows: [[u16; MAX_LENGTH]; MAX_MASTERS],
}

// Whether a lent slice is too short (8): a buffer for so many bytes carried, or levels recorded, or the table for so
// many masters.
fn short(
    masters: usize,
    count: usize,
    needed: usize,
    table: usize,
    carried: usize,
    levels: usize,
) -> bool
    ensures { result ≡ Short masters count needed table carried levels }
{
    (carried < count) | (levels < needed) | (table < masters)
}

// Decides what a call is to do, from what is lent and how long it is.
pub(crate) fn prepare(
    bytes: &[u8],
    parts: &[u32],
    counts: &[u32],
    acks: &[u8],
    table: usize,
    carried: usize,
    levels: usize,
) -> Result<Prepared, Refusal>
    ensures { result
        ≡ prepared
        (asked bytes.now parts.now counts.now acks.now)
        table carried levels }
{
    let settled = arbitration_checks::settle(bytes, parts, counts, acks)?;
    if short(
        counts.len(),
        settled.count,
        settled.levels,
        table,
        carried,
        levels,
    ) {
        return refused(8, 0);
    }
    let Messages {
        sent,
        size,
        lengths,
        count,
    } = arbitration_messages::gather(bytes, parts, counts)?;
    let first = Sequencer::first(&lengths[..count]);
    let rows = arbitration_members::rows(&sent[..size], &lengths[..count]);
    Ok(Prepared { first, rows })
}
