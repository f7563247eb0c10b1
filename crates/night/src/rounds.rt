// The rounds of a night, until none is left.
ghost use Rattle.std.specs.Prelude.{◌<◌, ◌≡◌, replicate};
ghost use Rattle.laws.specs.Search.{any};
ghost use Rattle.arbitration_rules.specs.Limits.{max_masters};
ghost use Rattle.arbitration_rules.specs.Reply.{asked, lengths_of};
ghost use Rattle.night_rules.specs.Night.{waits, night_refusal, night_for};
ghost use Rattle.night.specs.Carried.{standing_of, standing_after};
ghost use Rattle.night.specs.Round.{Due};

use crate::carried::Standing;
use crate::{carried, contest};
use arbitration_rules::MAX_MASTERS;
use usi::Usi;

// Some message waits.
fn any_waits(rounds: &[u32]) -> bool
    ensures { result ≡ any waits rounds.now }
{
    rounds.contains(&0)
}

// The night after one more round.
fn round(
    standing: Standing,
    bytes: &[u8],
    parts: &[u32],
    counts: &[u32],
    acks: &[u8],
    lengths: &[u32],
) -> Standing
    requires { Due (asked bytes.now parts.now counts.now acks.now) lengths.now standing.rounds
        × (standing.count < max_masters) }
    ensures { result
        ≡ standing_after
        (asked bytes.now parts.now counts.now acks.now) standing }
{
    let rounds = standing.rounds;
    let modules = standing.modules;
    let shown = contest::contest(modules, rounds, bytes, parts, counts, acks, lengths);
    let reply = shown.reply;
    let seats = reply.seats;
    let left = shown.modules;
    carried::enter(standing, counts.len(), seats, left)
}

// All rounds of a night that nothing refuses.
pub(crate) fn all_rounds(
    modules: [Usi; MAX_MASTERS],
    bytes: &[u8],
    parts: &[u32],
    counts: &[u32],
    acks: &[u8],
    lengths: &[u32],
) -> Standing
    requires { ((night_refusal (asked bytes.now parts.now counts.now acks.now) max_masters max_masters).number
        ≡ 0)
        × (lengths.now ≡ lengths_of (asked bytes.now parts.now counts.now acks.now)) }
    ensures { result
        ≡ standing_of
        (asked bytes.now parts.now counts.now acks.now)
        (replicate max_masters 0)
        (night_for
        (asked bytes.now parts.now counts.now acks.now) modules) }
{
    let mut standing = Standing {
        count: 0,
        rounds: [0u32; MAX_MASTERS],
        modules,
    };
    let count = counts.len();
    loop {
        let rounds = standing.rounds;
        if !any_waits(&rounds[..count]) {
            return standing;
        }
        let next = round(standing, bytes, parts, counts, acks, lengths);
        standing = next;
    }
}
