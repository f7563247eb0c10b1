// The night for callers in C or Rust: the number of rounds, and two tables of an entry for each message.
ghost use Rattle.std.specs.Prelude.{◌≡◌, ◌<◌, ◌≤◌, length, take};
ghost use Rattle.laws.specs.Buffer.{filled};
ghost use Rattle.arbitration_rules.specs.Limits.{max_masters};
ghost use Rattle.arbitration_rules.specs.Reply.{asked};
ghost use Rattle.export.specs.Night.{gave, lent, packed_night, returned};

use crate::arbitration_calls;
use arbitration_rules::MAX_MASTERS;
use laws::Refusal;
use usi::Usi;

// The answer of a night.
fn night_answer(found: Refusal, count: usize) -> u64
    requires { (found.place < 65536) × (count < 65536) }
    ensures { result ≡ packed_night found count }
{
    (found.number as u64) + 256 * (found.place as u64) + 16777216 * (count as u64)
}

// The first of the rounds, so many.
fn put_rounds(rounds: [u32; MAX_MASTERS], count: usize, table: &mut [u32])
    requires { (count ≤ max_masters) × (count ≤ length table.old) }
    ensures { table.new ≡ filled (take count rounds) table.old }
{
    table[..count].copy_from_slice(&rounds[..count]);
}

// The night of messages that lie in bytes one after the other, with the length of every part, message after message,
// and how many parts each message has: refused by 12, 13, 14, 15, 43, 16 and 8 in this order, and then everything lent
// stays as it was. The table of rounds gets the round of each message, from 1, that of modules its module as that round
// left it.
#[unsafe(no_mangle)]
pub extern "C" fn kan_night(
    bytes: &[u8],
    parts: &[u32],
    counts: &[u32],
    acks: &[u8],
    rounds: &mut [u32],
    modules: &mut [u64],
) -> u64
    ensures { gave result rounds.new modules.new
        ≡ returned (lent
        (asked bytes.now parts.now counts.now acks.now)
        rounds.old modules.old) }
{
    let table = [Usi::power_up(0, 0); MAX_MASTERS];
    let done = night::rehearse(
        table,
        bytes,
        parts,
        counts,
        acks,
        rounds.len(),
        modules.len(),
    );
    let found = done.refusal;
    if found.number != 0 {
        return night_answer(found, 0);
    }
    let masters = counts.len();
    let final_rounds = done.rounds;
    put_rounds(final_rounds, masters, rounds);
    let final_modules = done.modules;
    arbitration_calls::put_modules(final_modules, masters, modules);
    night_answer(found, done.count)
}
