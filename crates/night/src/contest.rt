// One round: an arbitration of the messages that wait.
ghost use Rattle.std.specs.Prelude.{◌≤◌, ◌≡◌, true, length, take, replicate};
ghost use Rattle.laws.specs.Search.{any};
ghost use Rattle.arbitration_rules.specs.Limits.{max_masters};
ghost use Rattle.arbitration_rules.specs.Reply.{asked, longest, lengths_of};
ghost use Rattle.night.specs.Waiting.{waiting_in};
ghost use Rattle.night.specs.Round.{Due, Contested};

use crate::waiting;
use arbitration::Rehearsed;
use arbitration_rules::{MAX_LENGTH, MAX_MASTERS};
use usi::Usi;

// The most levels that an arbitration records: 5, 18 for each byte, and 3 for a restart before each but the first.
const MAX_LEVELS: usize = 5 + 18 * MAX_LENGTH + 3 * (MAX_LENGTH - 1);

// How many acknowledges the messages that wait need, from all lengths: as many as the longest of them has bytes.
fn needed(rounds: [u32; MAX_MASTERS], lengths: &[u32]) -> usize
    requires { length lengths.now ≤ max_masters }
    ensures { result
        ≡ longest (waiting_in rounds (replicate (length lengths.now) 1) lengths.now) }
{
    let ones = [1u32; MAX_MASTERS];
    let count = lengths.len();
    let waiting = waiting::joined(rounds, &ones[..count], lengths, 0);
    arbitration_checks::longest(waiting.items())
}

// The arbitration of the messages that wait, each lent anew, with the acknowledges that they need. The modules are
// those of the messages that wait, one after the other.
pub(crate) fn contest(
    modules: [Usi; MAX_MASTERS],
    rounds: [u32; MAX_MASTERS],
    bytes: &[u8],
    parts: &[u32],
    counts: &[u32],
    acks: &[u8],
    lengths: &[u32],
) -> Rehearsed
    requires { Due (asked bytes.now parts.now counts.now acks.now) lengths.now rounds }
    ensures { Contested
        (asked bytes.now parts.now counts.now acks.now)
        rounds modules result }
{
    let ones = [1u32; MAX_MASTERS];
    let count = counts.len();
    let own_counts = waiting::joined(rounds, &ones[..count], counts, 0);
    let own_parts = waiting::joined(rounds, counts, parts, 0);
    let own_bytes = waiting::joined(rounds, lengths, bytes, 0);
    let heard = needed(rounds, lengths);
    let mut carried = [0u8; MAX_LENGTH];
    let mut levels = [0u8; MAX_LEVELS];
    arbitration::rehearse(
        modules,
        own_bytes.items(),
        own_parts.items(),
        own_counts.items(),
        &acks[..heard],
        &mut carried,
        &mut levels,
    )
}
