// Messages: where one lies in what is sent, whether two are the same, whether every byte is acknowledged.
ghost use Rattle.std.specs.Prelude.{◌≡◌};
ghost use Rattle.arbitration_rules.specs.Outcome.{all_acknowledged};
ghost use Rattle.verdict.specs.Message.{MessageAt};
ghost use Rattle.laws.specs.Same.{same as same_of};

// From one index to another.
#[derive(Clone, Copy)]
pub(crate) struct Span {
    pub(crate) from: usize,
    pub(crate) to: usize,
}

// Where a message lies in what is sent, by its index; nothing past the last.
pub(crate) fn message_at(sent: &[u16], lengths: &[u32], index: usize) -> Span
    ensures { MessageAt lengths.now sent.now index result }
{
    if index >= lengths.len() {
        return Span { from: 0, to: 0 };
    }
    let mut from: usize = 0;
    for length in &lengths[..index] {
        from = arbitration_messages::end_of(sent.len(), from, *length);
    }
    let to = arbitration_messages::end_of(sent.len(), from, lengths[index]);
    Span { from, to }
}

// Two messages are the same: the same bytes in the same parts.
pub(crate) fn same(message: &[u16], other: &[u16]) -> bool
    ensures { result ≡ same_of message.now other.now }
{
    message == other
}

// Every byte of a message is acknowledged.
pub(crate) fn acknowledged(message: &[u16], acks: &[u8]) -> bool
    ensures { result ≡ all_acknowledged message.now acks.now }
{
    message.iter().zip(acks).all(|(_, ack)| *ack == 0)
}
