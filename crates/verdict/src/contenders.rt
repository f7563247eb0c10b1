// The boards that are still in: the first of them, and whether all of them have one message.
ghost use Rattle.std.specs.Prelude.{◌≡◌};
ghost use Rattle.laws.specs.Search.{first as first_of, all};
ghost use Rattle.arbitration_rules.specs.Reply.{cut};
ghost use Rattle.laws.specs.Same.{same as same_of};
ghost use Rattle.verdict.specs.Verdict.{still_in, contenders};

use crate::messages;
use arbitration_rules::{MAX_MASTERS, Seat};

// The first seat that is still in, else how many seats there are.
pub(crate) fn first(seats: [Seat; MAX_MASTERS]) -> usize
    ensures { result ≡ first_of still_in seats }
{
    for (i, seat) in seats.iter().enumerate() {
        if seat.contending {
            return i;
        }
    }
    MAX_MASTERS
}

// Every board that is still in has this message.
pub(crate) fn agree(
    message: &[u16],
    seats: [Seat; MAX_MASTERS],
    sent: &[u16],
    lengths: &[u32],
) -> bool
    ensures { result ≡ all (same_of message.now)
        (contenders seats (cut lengths.now sent.now)) }
{
    let mut from: usize = 0;
    for i in 0..lengths.len().min(MAX_MASTERS) {
        let to = arbitration_messages::end_of(sent.len(), from, lengths[i]);
        if seats[i].contending & !messages::same(message, &sent[from..to]) {
            return false;
        }
        from = to;
    }
    true
}
