// What the masters of an arbitration know beside their modules, by value: their messages, who still contends, and
// where each lost.
#![tactic(auto)]

mod members; // members.rt: what the masters know of themselves beside their modules
mod messages; // messages.rt: the messages as rows

pub use members::Members;
pub use messages::{column, rows};
