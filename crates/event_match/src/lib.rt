// Two lists of events compared: what was rehearsed, and what was seen on the bus.
#![tactic(auto)]

ghost use Rattle.std.specs.Prelude.{◌≡◌};
ghost use Rattle.event_match.specs.Match.{compared};

mod parts; // parts.rt: where two events differ
mod lists; // lists.rt: how many events two lists begin with alike, and which byte comes next

// Where two events differ: at a bit of a byte (7 is the most significant), at its acknowledge, or as no two bytes do.
#[derive(Clone, Copy)]
pub enum Part {
    Other,
    Bit(u8),
    Acknowledge,
}

// The first difference: the index of the event, which byte of its message it is or comes before, and its part.
#[derive(Clone, Copy)]
pub struct Difference {
    pub index: usize,
    pub byte: usize,
    pub part: Part,
}

// The first difference of two lists of events, as decode gives them; none where they are equal.
pub fn compare(rehearsed: &[u16], seen: &[u16]) -> Option<Difference>
    ensures { result ≡ compared rehearsed.now seen.now }
{
    let index = lists::agreed(rehearsed, seen);
    if (index == rehearsed.len()) & (index == seen.len()) {
        return None;
    }
    let byte = lists::byte_at(&rehearsed[..index]);
    Some(Difference {
        index,
        byte,
        part: parts::part_at(rehearsed, seen, index),
    })
}
