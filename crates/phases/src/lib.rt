// Reading in a mode: a trace with a whole SCL phase too short to be real is refused with 18.
#![tactic(auto)]

ghost use Rattle.std.specs.Prelude.{◌≡◌, length};
ghost use Rattle.decode.specs.DecodeReply.{events_after};
ghost use Rattle.phases.specs.DecodedIn.{decoded_in};

use decode::Decoded;
use laws::{Refusal, refused};

mod phase; // phase.rt: the phases of SCL, and the first sample that ends a short one

// What the bus behind a trace may do: anything, or what UM10204 allows in Standard-mode or in Fast-mode. In the last
// two stamps count units of 100 ns.
#[derive(Clone, Copy)]
pub enum Mode {
    Unchecked,
    Standard,
    Fast,
}

// The events of a trace read in a mode. 18 comes after 5, 6, 4 and 7 and before 8; a refusal leaves the slice as it
// was.
pub fn decode_in(
    mode: Mode,
    stamps: &[u32],
    levels: &[u8],
    events: &mut [u16],
) -> Result<Decoded, Refusal>
    ensures answer { result ≡ decoded_in mode stamps.now levels.now
        (length events.old) }
    ensures buffer { events.new ≡ events_after result levels.now events.old }
{
    trace::check(stamps, levels)?;
    if let Some(place) = phase::first_short(mode, stamps, levels) {
        return refused(18, place);
    }
    decode::decode(stamps, levels, events)
}
