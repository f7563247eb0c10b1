// The verdict of a load: from arbitrate's reply, the messages and the acknowledges.
#![tactic(auto)]

ghost use Rattle.std.specs.Prelude.{◌≡◌};
ghost use Rattle.arbitration_rules.specs.Reply.{asked, cut};
ghost use Rattle.verdict.specs.Verdict.{contenders as contenders_of, decided, verdict_for};

mod contenders; // contenders.rt: the boards that are still in, and whether their messages are the same
mod messages; // messages.rt: where a message lies, two compared, and whether every byte is acknowledged

use arbitration_messages::Messages;
use arbitration_rules::{Arbitrated, MAX_MASTERS, Seat};

// What a rehearsal says of a load.
#[derive(Clone, Copy)]
pub enum Verdict {
    // the library refused it, with this number
    Refused(u8),
    // boards with different messages are still in (or none is, which no reply of arbitrate says)
    Undecided,
    // the winner's message was cut short: so many of its bytes were carried, the last of them not acknowledged
    Cut(usize),
    // the winner's message was carried whole, so many bytes, and every one acknowledged
    Sent(usize),
}

// The verdict where nothing is refused: from what became of each board, and how many bytes were carried.
fn decide(
    seats: [Seat; MAX_MASTERS],
    count: usize,
    sent: &[u16],
    lengths: &[u32],
    acks: &[u8],
) -> Verdict
    ensures { result ≡ decided (contenders_of seats (cut lengths.now sent.now)) count
        acks.now }
{
    let winner = contenders::first(seats);
    if (winner >= MAX_MASTERS) | (winner >= lengths.len()) {
        return Verdict::Undecided;
    }
    let span = messages::message_at(sent, lengths, winner);
    let from = span.from;
    let to = span.to;
    let message = &sent[from..to];
    if !contenders::agree(message, seats, sent, lengths) {
        return Verdict::Undecided;
    }
    if (count == message.len()) & messages::acknowledged(message, acks) {
        return Verdict::Sent(message.len());
    }
    Verdict::Cut(count)
}

// The verdict of a reply to the messages that lie in bytes one after the other, in parts as in arbitrate.
pub fn judge(reply: Arbitrated, bytes: &[u8], parts: &[u32], counts: &[u32], acks: &[u8]) -> Verdict
    ensures { result ≡ verdict_for reply
        (asked bytes.now parts.now counts.now acks.now) }
{
    let refusal = reply.refusal;
    if refusal.number != 0 {
        return Verdict::Refused(refusal.number);
    }
    let Ok(messages) = arbitration_messages::gather(bytes, parts, counts) else {
        return Verdict::Undecided;
    };
    let Messages {
        sent,
        size,
        lengths,
        count,
    } = messages;
    let seats = reply.seats;
    decide(seats, reply.count, &sent[..size], &lengths[..count], acks)
}
