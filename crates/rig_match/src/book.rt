// The rehearsal as it is kept: the rows of its loads and boards as frame_match has them, their events and their names
// each one after another.
use frame_match::FIELDS;

// How much is kept; one more of each shows that there is more.
pub(crate) const ROWS: usize = 16384;

pub(crate) const EVENTS: usize = 131072;

pub(crate) const NAMES: usize = 262144;

pub(crate) const ROW_ROOM: usize = FIELDS * (ROWS + 1);

pub(crate) const EVENT_ROOM: usize = EVENTS + 1;

pub(crate) const NAME_ROOM: usize = NAMES + 1;

// What the frames are held against beside the book, whose rows change from frame to frame: how many of them there are,
// their events and names, and the events of the capture with their stamps.
#[derive(Clone, Copy)]
pub(crate) struct Lists<'a> {
    pub(crate) rows: usize,
    pub(crate) events: &'a [u16],
    pub(crate) names: &'a [u8],
    pub(crate) seen: &'a [u16],
    pub(crate) stamps: &'a [u64],
}

// The bytes of names from a place on up to another, as far as there are.
pub(crate) fn text(names: &[u8], from: usize, to: usize) -> &[u8] {
    let part = &names[..to.min(names.len())];
    &part[from.min(part.len())..]
}
