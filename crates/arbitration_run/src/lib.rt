// A run of an arbitration by 01's steps 1 to 4, by value: a sequencer says what each instant does to the modules, and
// what follows from what they then show. The modules themselves are held by crate arbitration.
#![tactic(auto)]

mod sequencer; // sequencer.rt: the order of the instants
mod wire; // wire.rt: the lines, and what is taken from them

pub use sequencer::Sequencer;
