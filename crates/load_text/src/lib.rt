// The words of a file of loads, and which board each master is. Every function is total: none has a `requires`.
#![tactic(auto)]

mod boards; // boards.rt: the boards that are not silent are the library's masters
mod messages; // messages.rt: the messages of the boards that are not silent, one after another
mod parts; // parts.rt: the parts of the same messages
mod words; // words.rt: bytes, acknowledges, N/M and names

pub use boards::{board_of, master_of};
pub use messages::{gather, gather_lengths, message_in};
pub use parts::{count_parts, gather_counts, gather_parts};
pub use words::{
    BOARD_NAME, LOAD_NAME, acknowledge_in, byte_in, is_board_name, is_load_name, parts_in,
    short_byte_in,
};
