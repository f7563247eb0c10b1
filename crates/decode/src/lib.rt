// What a bus trace holds: the decoder, stepped by one sample, and the events of a whole trace.
#![tactic(auto)]

ghost use Rattle.std.specs.Prelude.{◌≡◌, length};
ghost use Rattle.decode.specs.DecodeReply.{decoded, events_after};

use laws::{Refusal, refused};

mod step; // step.rt: the decoder, stepped by one sample
mod listing; // listing.rt: the events of all samples, counted and written

// What the decoder knows after a sample: the last level, whether a frame is open, whether a START or STOP fell in this
// high phase of SCL, how many bits are pending, and their value.
#[derive(Clone, Copy)]
pub struct Decoder {
    pub last: u8,
    pub framed: bool,
    pub marked: bool,
    pub pending: u8,
    pub value: u8,
}

// What one sample lists: nothing, one event, or two.
#[derive(Clone, Copy)]
pub enum Listed {
    Nothing,
    One(u16),
    Two(u16, u16),
}

// The decoder after a sample, and what the sample lists.
#[derive(Clone, Copy)]
pub struct Stepped {
    pub decoder: Decoder,
    pub listed: Listed,
}

// What a trace holds: how many events, whether a frame is open at its end, how many bits are pending, and their value.
#[derive(Clone, Copy)]
pub struct Decoded {
    pub count: usize,
    pub framed: bool,
    pub pending: u8,
    pub value: u8,
}

// The events of a trace, 01's wire reader. A slice with room for an event a sample is never too short; for any other
// they are counted first, so that a refusal leaves the slice as it was.
pub fn decode(stamps: &[u32], levels: &[u8], events: &mut [u16]) -> Result<Decoded, Refusal>
    ensures answer { result ≡ decoded stamps.now levels.now (length events.old) }
    ensures buffer { events.new ≡ events_after result levels.now events.old }
{
    trace::check(stamps, levels)?;
    if listing::short(levels, events.len()) {
        return refused(8, 0);
    }
    let written = listing::write_events(levels, events);
    let decoder = written.decoder;
    Ok(Decoded {
        count: written.count,
        framed: decoder.framed,
        pending: decoder.pending,
        value: decoder.value,
    })
}
