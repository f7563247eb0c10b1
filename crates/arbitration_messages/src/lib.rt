// The messages of a request, gathered from lent slices: what each sends, one after the other, and their lengths.
#![tactic(auto)]

ghost use Rattle.std.specs.Prelude.{◌≡◌, []};
ghost use Rattle.arbitration_rules.specs.Reply.{asked};
ghost use Rattle.arbitration_messages.specs.Gathered.{gathered};

mod lengths; // lengths.rt: how many bytes each message has, and the first that is out of the limits
mod marks; // marks.rt: where a restart stands, and the bytes with that

use arbitration_rules::{MAX_LENGTH, MAX_MASTERS};
use laws::{Refusal, refused};
pub use lengths::end_of;

// The most bytes that all messages together have.
pub const MAX_SENT: usize = MAX_MASTERS * MAX_LENGTH;

// What is added to a byte that no restart stands before.
pub const NO_RESTART: u16 = 256;

// What the messages send, one number a byte, as many as size says, and past it 256; and the length of each, as many as
// count says, and past it 0.
#[derive(Clone, Copy)]
pub struct Messages {
    pub sent: [u16; MAX_SENT],
    pub size: usize,
    pub lengths: [u32; MAX_MASTERS],
    pub count: usize,
}

// The messages of a request, or the first of 12 and 13 that applies.
pub fn gather(bytes: &[u8], parts: &[u32], counts: &[u32]) -> Result<Messages, Refusal>
    ensures { result
        ≡ gathered (asked bytes.now parts.now counts.now []) }
{
    let count = counts.len();
    if (count == 0) | (count > MAX_MASTERS) {
        return refused(12, 0);
    }
    let lengths = lengths::lengths_of(parts, counts);
    let bad = lengths::first_bad(counts, &lengths);
    let size = lengths::total(&lengths);
    if (bad < count) | (lengths::total(counts) != parts.len()) | (size != bytes.len()) {
        return refused(13, bad);
    }
    let restarts = marks::part_marks(parts);
    let marks = marks::message_marks(restarts, lengths, count);
    let sent = marks::joined(bytes, marks);
    Ok(Messages {
        sent,
        size,
        lengths,
        count,
    })
}
