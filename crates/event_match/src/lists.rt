// How many events two lists begin with alike, and which byte of a message comes next.
ghost use Rattle.std.specs.Prelude.{◌<◌, ◌≡◌};
ghost use Rattle.event_match.specs.Match as matching;

use trace::START;

// How many events both begin with.
pub(crate) fn agreed(rehearsed: &[u16], seen: &[u16]) -> usize
    ensures { result ≡ matching.agreed rehearsed.now seen.now }
{
    rehearsed
        .iter()
        .zip(seen)
        .take_while(|(event, other)| **event == **other)
        .count()
}

// Which byte an event leaves the next one at. The events below START are the bytes.
fn byte_after(byte: usize, event: u16) -> usize
    requires { byte < 18446744073709551615 }
    ensures { result ≡ matching.byte_after byte event }
{
    if event == START {
        return 0;
    }
    if event < START {
        return byte + 1;
    }
    byte
}

// Which byte comes after these events.
pub(crate) fn byte_at(events: &[u16]) -> usize
    ensures { result ≡ matching.byte_from 0 events.now }
{
    let mut byte: usize = 0;
    for event in events {
        byte = byte_after(byte, *event);
    }
    byte
}
