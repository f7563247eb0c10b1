// Bus traces: stamps and levels, one each per sample; their limits, and the numbers of the events that they hold.
#![tactic(auto)]

ghost use Rattle.std.specs.Prelude.{◌≡◌};
ghost use Rattle.laws.specs.Refusals.{answer};
ghost use Rattle.trace.specs.Trace.{trace_checks};

use laws::{Refusal, refused};

pub mod search; // search.rt: the first bad level and the first bad stamp

// A trace has at most this many samples.
pub const MAX_SAMPLES: usize = 4096;

// The largest gap between two stamps that encode draws.
pub const MAX_GAP: u32 = 1000;

// The largest stamp.
pub const MAX_STAMP: u64 = 4294967295;

// The events above the bytes: a byte is 0 to 511, 256 being added where its ninth bit was high.
pub const NACK: u16 = 256;

pub const START: u16 = 512;

pub const REPEATED_START: u16 = 513;

pub const STOP: u16 = 514;

pub const PARTIAL: u16 = 515;

// The first of 5, 6, 4 and 7 that applies to stamps and levels.
pub fn check(stamps: &[u32], levels: &[u8]) -> Result<(), Refusal>
    ensures { result ≡ answer (trace_checks stamps.now levels.now) tt }
{
    if stamps.len() != levels.len() {
        return refused(5, 0);
    }
    if levels.len() > MAX_SAMPLES {
        return refused(6, 0);
    }
    if let Some(level) = search::bad_level(levels) {
        return refused(4, level);
    }
    if let Some(stamp) = search::bad_stamp(stamps) {
        return refused(7, stamp);
    }
    Ok(())
}
