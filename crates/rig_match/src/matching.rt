// Each frame of the capture held against the loads, in their order.
use crate::book::{Lists, ROW_ROOM};
use crate::reading::Reading;
use crate::{ending, reported};
use frame_match::{
    Found, end_of, find, load_about, next_after, next_load, settle, span, start_from,
};
use rig_lines::console::PAGE;

// How far the frames are held against the loads, and what became of them.
#[derive(Clone, Copy)]
pub(crate) struct Matching {
    // where the page goes on
    pub(crate) at: usize,
    // the row of the next load; past the rows where there is none
    next: usize,
    pub(crate) frames: u64,
    pub(crate) rehearsed: u64,
    pub(crate) waited: u64,
    pub(crate) different: u64,
    pub(crate) other: u64,
}

impl Matching {
    // With one frame more, which was found to be something.
    fn counted(mut self, found: Found) -> Matching {
        self.frames = self.frames.saturating_add(1);
        match found {
            Found::Waiting(_) => self.waited = self.waited.saturating_add(1),
            Found::Rehearsed(_) => self.rehearsed = self.rehearsed.saturating_add(1),
            Found::Different => self.different = self.different.saturating_add(1),
            Found::Other => self.other = self.other.saturating_add(1),
        }
        self
    }
}

// The frame that begins at a place.
fn with_frame(
    page: &mut [u8; PAGE],
    book: &mut [u32; ROW_ROOM],
    lists: Lists,
    from: usize,
    so_far: Matching,
) -> Matching {
    let Lists {
        rows,
        events,
        seen,
        ..
    } = lists;
    let found = find(book, rows, events, seen, from, so_far.next);
    let load = load_about(book, rows, found, so_far.next);
    let mut matching = so_far.counted(found);
    let end = end_of(seen, from);
    let number = matching.frames;
    matching.at = reported::put(
        page,
        matching.at,
        book,
        lists,
        from,
        end,
        number,
        load,
        found,
    );
    let frame = span(seen, from, end);
    settle(book, rows, events, frame, load, found, number as usize);
    matching.next = next_after(book, rows, found, load, matching.next);
    matching
}

// All frames, of which there are no more than events.
fn match_all(
    page: &mut [u8; PAGE],
    at: usize,
    book: &mut [u32; ROW_ROOM],
    lists: Lists,
) -> Matching {
    let seen = lists.seen;
    let mut so_far = Matching {
        at,
        next: next_load(book, lists.rows, 0),
        frames: 0,
        rehearsed: 0,
        waited: 0,
        different: 0,
        other: 0,
    };
    let mut from = start_from(seen, 0);
    for _ in 0..seen.len() {
        if from >= seen.len() {
            return so_far;
        }
        so_far = with_frame(page, book, lists, from, so_far);
        from = end_of(seen, from);
    }
    so_far
}

// All frames, what was not on the bus, and the last line.
pub(crate) fn run(
    page: &mut [u8; PAGE],
    book: &mut [u32; ROW_ROOM],
    lists: Lists,
    reading: Reading,
) -> usize {
    let done = match_all(page, reading.at, book, lists);
    ending::put(page, book, lists, reading, done)
}
