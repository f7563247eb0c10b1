// Events of a trace as text: an event's words, and the event that a line says.
#![tactic(auto)]

mod reading; // reading.rt: what a line of an event list says
mod writing; // writing.rt: an event in words

pub use reading::{Said, parse};
pub use writing::show;
