// The refusals of a night, in their order: 12, 13, 14, 15, 43, 16, 8.
ghost use Rattle.std.specs.Prelude.{◌≡◌};
ghost use Rattle.laws.specs.Search.{any};
ghost use Rattle.arbitration_rules.specs.Reply.{asked, cut};
ghost use Rattle.night_rules.specs.Night.{is_one, end_apart};
ghost use Rattle.night.specs.Admitted.{formed, admitted};

use arbitration_messages::Messages;
use laws::{Refusal, refused};

// The first of 12 to 15 that applies, as for one arbitration, else the messages.
fn form(bytes: &[u8], parts: &[u32], counts: &[u32], acks: &[u8]) -> Result<Messages, Refusal>
    ensures { result ≡ formed (asked bytes.now parts.now counts.now acks.now) }
{
    match arbitration_checks::settle(bytes, parts, counts, acks) {
        Err(found) if found.number != 16 => Err(found),
        _ => arbitration_messages::gather(bytes, parts, counts),
    }
}

// Some acknowledge is 1.
fn any_one(acks: &[u8]) -> bool
    ensures { result ≡ any is_one acks.now }
{
    acks.contains(&1)
}

// Two messages first differ at an ending of either one; no acknowledge plays a part.
fn end_apart(sent: &[u16], lengths: &[u32], acks: &[u8]) -> bool
    ensures { result ≡ end_apart (cut lengths.now sent.now) }
{
    let mut from: usize = 0;
    for length in lengths {
        let to = arbitration_messages::end_of(sent.len(), from, *length);
        if arbitration_checks::any_ending_differs(&sent[from..to], sent, lengths, &acks[..0]) {
            return true;
        }
        from = to;
    }
    false
}

// The messages of a night, or the first refusal that applies.
pub(crate) fn admitted(
    bytes: &[u8],
    parts: &[u32],
    counts: &[u32],
    acks: &[u8],
    rounds_room: usize,
    table_room: usize,
) -> Result<Messages, Refusal>
    ensures { result
        ≡ admitted
        (asked bytes.now parts.now counts.now acks.now)
        rounds_room table_room }
{
    let messages = form(bytes, parts, counts, acks)?;
    let Messages {
        sent,
        size,
        lengths,
        count,
    } = messages;
    if any_one(acks) {
        return refused(43, 0);
    }
    if end_apart(&sent[..size], &lengths[..count], acks) {
        return refused(16, 0);
    }
    if (rounds_room < counts.len()) | (table_room < counts.len()) {
        return refused(8, 0);
    }
    Ok(messages)
}
