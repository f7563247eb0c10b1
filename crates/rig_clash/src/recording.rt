// The levels of a load as a trace, a sample a line, which rig decode and rig dump read.
use crate::kept;
use crate::kept::part;
use crate::outcome::{LEVELS, Outcome};
use crate::phrase::begin_numbers;
use rig_lines::console::PAGE;

// From one sample to the next.
const GAP: u64 = 50;

// The load that is being read is the one that is asked for by name.
pub(crate) fn is_asked(kept: &[u8]) -> bool {
    kept::asked(kept) == kept::name(kept)
}

fn stamp(sample: usize) -> u64 {
    if sample < LEVELS {
        sample as u64 * GAP
    } else {
        0
    }
}

fn put_sample(page: &mut [u8; PAGE], at: usize, sample: usize, level: u8) -> usize {
    begin_numbers(page, at, b"# #\n", &[stamp(sample), level as u64])
}

fn put_samples(page: &mut [u8; PAGE], at: usize, levels: &[u8]) -> usize {
    let mut next = at;
    for (i, level) in levels.iter().enumerate() {
        next = put_sample(page, next, i, *level);
    }
    next
}

// What was recorded of a rehearsal, unless it was refused.
pub(crate) fn put(page: &mut [u8; PAGE], at: usize, levels: &[u8], outcome: Outcome) -> usize {
    if outcome.is_refused() {
        return at;
    }
    put_samples(page, at, part(levels, 0, outcome.levels))
}
