// The frames of a capture held against the loads of a rehearsal, in their order.
#![tactic(auto)]

mod book; // book.rt: the loads and boards of the rehearsal, as they are kept
mod frames; // frames.rt: the frames of the capture
mod rows; // rows.rt: rows looked for
mod rules; // rules.rt: which load a frame is held against
mod settling; // settling.rt: the load and its boards after the frame

pub use book::{get, is_load, is_of, is_rehearsed, set};
pub use frames::{end_of, span, start_from};
pub use rows::{boards_end, next_load, sender};
pub use rules::{find, load_about, next_after};
pub use settling::settle;

// The numbers of a row: what it is, how it stands, the frame since which it stands so, where its events begin and end
// (a load's rehearsed frame, a board's message), the same of its name, and the number of a board.
pub const FIELDS: usize = 8;

pub const KIND: usize = 0;

pub const STATE: usize = 1;

pub const SINCE: usize = 2;

pub const FROM: usize = 3;

pub const TO: usize = 4;

pub const NAME: usize = 5;

pub const NAME_END: usize = 6;

pub const NUMBER: usize = 7;

// What a row is: a load, or a board that won, that won and was cut, that is still in, that lost.
pub const LOAD: usize = 0;

pub const WON: usize = 1;

pub const CUT: usize = 2;

pub const IN: usize = 3;

pub const LOST: usize = 4;

// How a load stands: a frame was it, or differed from it; or it was not rehearsed.
pub const MET: usize = 1;

pub const IN_ERROR: usize = 2;

pub const REFUSED: usize = 3;

// How a board stands.
pub const WAITS: usize = 1;

pub const DONE: usize = 2;

// What a frame is found to be.
#[derive(Clone, Copy)]
pub enum Found {
    // the message of a board that waits, in this row
    Waiting(usize),
    // the rehearsed frame of the load in this row
    Rehearsed(usize),
    // another frame than that of the next load
    Different,
    // not rehearsed
    Other,
}
