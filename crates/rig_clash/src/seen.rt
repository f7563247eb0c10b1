// The names of the loads to see, kept one after another with a space before each, as long as there is room.
use crate::kept;
use crate::kept::{ROOM, SEEN, SEEN_AT};
use text::{put_byte, put_bytes};

pub(crate) fn names(kept: &[u8]) -> &[u8] {
    kept::text_in(kept, SEEN_AT, SEEN)
}

// There is room for the name of the load that is being read, and a space.
pub(crate) fn fits(kept: &[u8]) -> bool {
    kept::name(kept).len() < SEEN.saturating_sub(names(kept).len())
}

// Its name is kept.
pub(crate) fn keep(kept: &mut [u8; ROOM]) {
    let mut space = [0u8; SEEN];
    let before = put_bytes(&mut space, 0, names(kept));
    let blank = put_byte(&mut space, before, b' ');
    put_bytes(&mut space, blank, kept::name(kept));
    kept::keep(kept, SEEN_AT, SEEN, &space);
}
