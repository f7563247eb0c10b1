// What stands before each byte, 0 for a restart and else 256; and what the messages send.
ghost use Rattle.std.specs.Prelude.{◌≡◌, false, ◌++◌, ℕ, ◌-◌, ◌≤◌, length, get_or, take, replicate};
ghost use Rattle.laws.specs.Search.{any};
ghost use Rattle.arbitration_rules.specs.Limits.{max_masters, max_length};
ghost use Rattle.arbitration_rules.specs.Reply.{is_empty, total, marks_after};
ghost use Rattle.arbitration_messages.specs.Marks.{max_sent, started, joined_of};

use crate::{MAX_SENT, NO_RESTART};
use arbitration_rules::MAX_MASTERS;

// No restart anywhere.
fn unmarked() -> [u16; MAX_SENT]
    ensures { result ≡ replicate max_sent 256 }
{
    [NO_RESTART; MAX_SENT]
}

// A restart before every part.
pub(crate) fn part_marks(parts: &[u32]) -> [u16; MAX_SENT]
    requires { (any is_empty parts.now ≡ false) × (total parts.now ≤ max_sent) }
    ensures { result
        ≡ marks_after parts.now ++ replicate (max_sent - total parts.now) 256 }
{
    let mut marks = unmarked();
    let mut at: usize = 0;
    for part in parts {
        marks[at] = 0;
        at += *part as usize;
    }
    marks
}

// None before a message's first byte, of the first count messages.
pub(crate) fn message_marks(
    restarts: [u16; MAX_SENT],
    lengths: [u32; MAX_MASTERS],
    count: usize,
) -> [u16; MAX_SENT]
    requires { (count ≤ max_masters) × ((i : ℕ) → get_or lengths i 0 ≤ max_length) }
    ensures { result ≡ started (take count lengths) restarts }
{
    let mut marks = restarts;
    let mut from: usize = 0;
    for length in &lengths[..count] {
        marks[from] = NO_RESTART;
        from += *length as usize;
    }
    marks
}

// The bytes, each with its mark.
pub(crate) fn joined(bytes: &[u8], marks: [u16; MAX_SENT]) -> [u16; MAX_SENT]
    requires { (length bytes.now ≤ max_sent) × ((i : ℕ) → get_or marks i 0 ≤ 256) }
    ensures { result ≡ joined_of bytes.now marks }
{
    let mut sent = marks;
    for (i, byte) in bytes.iter().enumerate() {
        sent[i] = u16::from(*byte) + marks[i];
    }
    sent
}
