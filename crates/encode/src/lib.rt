// The drawing of event lists as traces, 01's wire writer.
#![tactic(auto)]

ghost use Rattle.std.specs.Prelude.{◌≡◌, length};
ghost use Rattle.encode.specs.EncodeReply.{encoded, stamps_after, levels_after};

mod frames; // frames.rt: whether an event list is complete, and how many samples it takes
mod draw; // draw.rt: the levels and stamps of an event list

use laws::{Refusal, refused};
use trace::{MAX_GAP, MAX_SAMPLES, MAX_STAMP};

// Where an event list stands: between frames, after a START, after a byte, or where no complete list can stand.
#[derive(Clone, Copy)]
pub enum Position {
    Between,
    Opened,
    Within,
    Broken,
}

// Draws the trace of an event list, 01's wire writer, and answers how many samples it has. All is tested first, so that
// a refusal leaves both slices as they were.
pub fn encode(
    events: &[u16],
    start: u32,
    gap: u32,
    stamps: &mut [u32],
    levels: &mut [u8],
) -> Result<usize, Refusal>
    ensures answer { result ≡ encoded events.now start gap (length stamps.old)
        (length levels.old) }
    ensures stamp_buffer { stamps.new ≡ stamps_after result start gap stamps.old }
    ensures level_buffer { levels.new ≡ levels_after result events.now levels.old }
{
    if !frames::complete(events) {
        return refused(9, 0);
    }
    if (gap == 0) | (gap > MAX_GAP) {
        return refused(10, 0);
    }
    let count = frames::count_samples(events);
    if count > MAX_SAMPLES {
        return refused(6, 0);
    }
    let last = (start as u64) + (gap as u64) * ((count - 1) as u64);
    if last > MAX_STAMP {
        return refused(11, 0);
    }
    if (stamps.len() < count) | (levels.len() < count) {
        return refused(8, 0);
    }
    draw::write_levels(events, levels);
    draw::write_stamps(start, gap, count, stamps);
    Ok(count)
}
