// The samples of a capture that change no level dropped, so that a long capture fits a trace.
#![tactic(auto)]

ghost use Rattle.std.specs.Prelude.{◌≡◌, length};
ghost use Rattle.laws.specs.Refusals.{answer};
ghost use Rattle.trace_thin.specs.ThinReply.{capture_checks, thin_answer, stamps_after, levels_after};

use laws::{Refusal, refused};
use trace::MAX_SAMPLES;

mod changes; // changes.rt: the samples that change a level, counted and written

// The first of 5, 4 and 7 that applies to a capture of any length.
fn check(stamps: &[u32], levels: &[u8]) -> Result<(), Refusal>
    ensures { result ≡ answer (capture_checks stamps.now levels.now) tt }
{
    if stamps.len() != levels.len() {
        return refused(5, 0);
    }
    if let Some(level) = trace::search::bad_level(levels) {
        return refused(4, level);
    }
    if let Some(stamp) = trace::search::bad_stamp(stamps) {
        return refused(7, stamp);
    }
    Ok(())
}

// Keeps the first sample of a capture, and each whose level differs from the sample before it, and answers how many
// those are. They are counted first, so that a refusal leaves both slices as they were.
pub fn thin(
    stamps: &[u32],
    levels: &[u8],
    thin_stamps: &mut [u32],
    thin_levels: &mut [u8],
) -> Result<usize, Refusal>
    ensures answer { result ≡ thin_answer stamps.now levels.now
        (length thin_stamps.old) (length thin_levels.old) }
    ensures stamp_buffer { thin_stamps.new ≡ stamps_after result stamps.now levels.now
        thin_stamps.old }
    ensures level_buffer { thin_levels.new ≡ levels_after result stamps.now levels.now
        thin_levels.old }
{
    check(stamps, levels)?;
    let count = changes::count(levels);
    if count > MAX_SAMPLES {
        return refused(6, 0);
    }
    if (thin_stamps.len() < count) | (thin_levels.len() < count) {
        return refused(8, 0);
    }
    changes::write(stamps, levels, thin_stamps, thin_levels);
    Ok(count)
}
