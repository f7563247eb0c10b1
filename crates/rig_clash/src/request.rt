// What the library is asked about a load: the messages of the boards that are not silent, by their numbers.
use crate::kept;
use crate::kept::{ACKS, ACKS_AT, BYTES, MESSAGES_AT, PARTS_AT};
use crate::load::Load;
use arbitration_rules::MAX_MASTERS;
use load_text::{gather, gather_counts, gather_parts};

// Room for one message more than there may be.
const COUNTS: usize = MAX_MASTERS + 1;

// The bytes of the messages, the lengths of their parts, how many parts each has, and how many there are of each.
#[derive(Clone, Copy)]
pub(crate) struct Request {
    bytes: [u8; BYTES],
    size: usize,
    parts: [u32; BYTES],
    parted: usize,
    counts: [u32; COUNTS],
    count: usize,
}

impl Request {
    pub(crate) fn bytes(&self) -> &[u8] {
        kept::part(&self.bytes, 0, self.size)
    }

    pub(crate) fn parts(&self) -> &[u32] {
        &self.parts[..self.parted.min(BYTES)]
    }

    pub(crate) fn counts(&self) -> &[u32] {
        &self.counts[..self.count.min(COUNTS)]
    }
}

// How many masters there are: in the old form more rows than are kept count as one too many.
fn masters(load: Load, kept: usize) -> usize {
    if load.rows > load.boards as u64 {
        COUNTS
    } else {
        kept
    }
}

pub(crate) fn of(kept: &[u8], load: Load) -> Request {
    let mut bytes = [0u8; BYTES];
    let mut parts = [0u32; BYTES];
    let mut counts = [0u32; COUNTS];
    let rows = kept::part(kept, MESSAGES_AT, BYTES);
    let starts = kept::part(kept, PARTS_AT, BYTES);
    let size = gather(rows, load.lengths, load.silent, &mut bytes);
    let parted = gather_parts(starts, load.silent, &mut parts);
    let count = gather_counts(starts, load.silent, &mut counts);
    Request {
        bytes,
        size,
        parts,
        parted,
        counts,
        count: masters(load, count),
    }
}

// The acknowledges.
pub(crate) fn acks(kept: &[u8], load: Load) -> &[u8] {
    kept::part(kept::part(kept, ACKS_AT, ACKS), 0, load.ack_count())
}
