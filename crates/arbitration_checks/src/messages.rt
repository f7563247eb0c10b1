// Messages that lie one after the other in what is sent: searched from the first.
ghost use Rattle.std.specs.Prelude.{◌≡◌};
ghost use Rattle.bits.specs.Positions.{is_set};
ghost use Rattle.laws.specs.Search.{first, any};
ghost use Rattle.arbitration_rules.specs.Outcome.{ending_differs};
ghost use Rattle.arbitration_rules.specs.Reply.{cut, reads as reads_of};

use crate::acknowledges;
use arbitration_messages::NO_RESTART;

// A byte is odd.
fn odd(sent: u16) -> bool
    ensures { result ≡ is_set 0 sent }
{
    sent % 2 == 1
}

// The first byte of one of a message's parts is odd.
fn reads(message: &[u16]) -> bool
    ensures { result ≡ reads_of message.now }
{
    let first = message.first().copied().unwrap_or(0);
    odd(first) || message.iter().any(|sent| (*sent < NO_RESTART) & odd(*sent))
}

// The first message with such a part (14), else how many there are.
pub(crate) fn first_read(sent: &[u16], lengths: &[u32]) -> usize
    ensures { result ≡ first reads_of (cut lengths.now sent.now) }
{
    let mut from: usize = 0;
    for (i, length) in lengths.iter().enumerate() {
        let to = arbitration_messages::end_of(sent.len(), from, *length);
        if reads(&sent[from..to]) {
            return i;
        }
        from = to;
    }
    lengths.len()
}

// Two messages first differ at an ending of either one, a restart or the STOP, and all before it is acknowledged.
fn ending_differs(message: &[u16], other: &[u16], acks: &[u8]) -> bool
    ensures { result ≡ ending_differs acks.now message.now other.now }
{
    for (i, sent) in message.iter().enumerate() {
        if i == other.len() {
            return true;
        }
        if *sent != other[i] {
            return (*sent < NO_RESTART) != (other[i] < NO_RESTART);
        }
        if !acknowledges::acknowledged(acks, i) {
            return false;
        }
    }
    message.len() < other.len()
}

// A message does so from some message (16). These comparisons are not counted.
pub fn any_ending_differs(message: &[u16], sent: &[u16], lengths: &[u32], acks: &[u8]) -> bool
    ensures { result
        ≡ any (ending_differs acks.now message.now)
        (cut lengths.now sent.now) }
{
    let mut from: usize = 0;
    for length in lengths {
        let to = arbitration_messages::end_of(sent.len(), from, *length);
        if ending_differs(message, &sent[from..to], acks) {
            return true;
        }
        from = to;
    }
    false
}
