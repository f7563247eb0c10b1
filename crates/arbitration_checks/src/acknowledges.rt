// Acknowledges (01: answers): one above 1, one at an index, and how many bytes are carried.
ghost use Rattle.std.specs.Prelude.{◌≡◌, eqb, get_or};
ghost use Rattle.laws.specs.Search.{any};
ghost use Rattle.arbitration_rules.specs.Outcome.{carried_count};
ghost use Rattle.arbitration_rules.specs.Reply.{above_one};

// Some acknowledge is above 1.
pub(crate) fn any_above_one(acks: &[u8]) -> bool
    ensures { result ≡ any above_one acks.now }
{
    acks.iter().any(|ack| *ack > 1)
}

// The byte at an index is acknowledged; one past the acknowledges is too.
pub(crate) fn acknowledged(acks: &[u8], i: usize) -> bool
    ensures { result ≡ eqb (get_or acks.now i 0) 0 }
{
    acks.get(i).copied().unwrap_or(0) == 0
}

// How many bytes of a message are carried: up to the first that is not acknowledged, with it.
pub(crate) fn carried_count(message: &[u16], acks: &[u8]) -> usize
    ensures { result ≡ carried_count message.now acks.now }
{
    for i in 0..message.len().min(acks.len()) {
        if acks[i] == 1 {
            return i + 1;
        }
    }
    message.len()
}
