// One pass over the modules of an arbitration, by value: 01's steps as rows of instants, and what each instant does to
// a module. The modules themselves are held by crate arbitration.
#![tactic(auto)]

mod instants; // instants.rt: the steps as rows of instants
mod pass; // pass.rt: what one pass does to a module, and what it shows

pub use instants::{Effect, Instant, Operation, Part};
pub use pass::{Pass, Sampling, Seen, noted, sampled, unseen, wrote_at};
