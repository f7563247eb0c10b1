// What a request decides before a run: refusals 12 to 16, the least message, how many bytes the bus will carry and how
// many levels it will record.
#![tactic(auto)]

ghost use Rattle.std.specs.Prelude.{◌≡◌, ◌≤◌, length};
ghost use Rattle.arbitration_rules.specs.Reply.{asked};
ghost use Rattle.arbitration_messages.specs.Marks.{max_sent};
ghost use Rattle.arbitration_checks.specs.Settled.{carrying as carrying_of, decided, settled};

mod acknowledges; // acknowledges.rt: one above 1, how many bytes are carried
mod lengths; // lengths.rt: the longest message
mod messages; // messages.rt: messages that lie one after the other in what is sent, searched
mod order; // order.rt: two messages compared, and the least of several
mod recorded; // recorded.rt: how many levels the bus records of what it carries

use arbitration_messages::Messages;
pub use arbitration_messages::end_of;
use laws::{Refusal, refused};
pub use lengths::longest;
pub use messages::any_ending_differs;
pub use order::{Least, least_message};

// How many bytes the bus will carry and how many levels it will record.
#[derive(Clone, Copy)]
pub struct Settled {
    pub count: usize,
    pub levels: usize,
}

// The run of a least message.
fn carrying(message: &[u16], acks: &[u8]) -> Settled
    requires { length message.now ≤ max_sent }
    ensures { result ≡ carrying_of message.now acks.now }
{
    let count = acknowledges::carried_count(message, acks);
    let levels = recorded::level_count(&message[..count]);
    Settled { count, levels }
}

// Refusals 14, 15 and 16, and the run, of messages that 12 and 13 pass.
fn decide(sent: &[u16], lengths: &[u32], acks: &[u8]) -> Result<Settled, Refusal>
    requires { length sent.now ≤ max_sent }
    ensures { result ≡ decided sent.now lengths.now acks.now }
{
    let read = messages::first_read(sent, lengths);
    if read < lengths.len() {
        return refused(14, read);
    }
    if (acks.len() != lengths::longest(lengths)) | acknowledges::any_above_one(acks) {
        return refused(15, 0);
    }
    let least = order::locate_least(sent, lengths);
    let from = least.from;
    let to = least.to;
    let message = &sent[from..to];
    if messages::any_ending_differs(message, sent, lengths, acks) {
        return refused(16, 0);
    }
    Ok(carrying(message, acks))
}

// The first of 12 to 16 that applies, else what the bus will carry and record.
pub fn settle(bytes: &[u8], parts: &[u32], counts: &[u32], acks: &[u8]) -> Result<Settled, Refusal>
    ensures { result
        ≡ settled
        (asked bytes.now parts.now counts.now acks.now) }
{
    let Messages {
        sent,
        size,
        lengths,
        count,
    } = arbitration_messages::gather(bytes, parts, counts)?;
    decide(&sent[..size], &lengths[..count], acks)
}
