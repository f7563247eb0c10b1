// Where two events differ.
ghost use Rattle.std.specs.Prelude.{◌≡◌};
ghost use Rattle.event_match.specs.Match as matching;

use super::Part;
use trace::START;

// The first of the eight bits that differs, from the most significant; else the acknowledge.
fn first_bit(event: u16, other: u16) -> Part
    ensures { result ≡ matching.first_bit 8 event other }
{
    for position in (0..8u8).rev() {
        if (event >> position) % 2 != (other >> position) % 2 {
            return Part::Bit(position);
        }
    }
    Part::Acknowledge
}

// Two bytes by a bit, any others as a whole. The events below START are the bytes.
fn part_of(event: u16, other: u16) -> Part
    ensures { result ≡ matching.part_of event other }
{
    if (event < START) & (other < START) {
        return first_bit(event, other);
    }
    Part::Other
}

// The same at an index.
pub(crate) fn part_at(rehearsed: &[u16], seen: &[u16], index: usize) -> Part
    ensures { result ≡ matching.part_at rehearsed.now seen.now index }
{
    match (rehearsed.get(index), seen.get(index)) {
        (Some(event), Some(other)) => part_of(*event, *other),
        _ => Part::Other,
    }
}
