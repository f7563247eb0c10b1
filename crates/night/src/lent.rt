// A night over what a caller lends: its rounds are put into a slice, and its modules into a table.
ghost use Rattle.std.specs.Prelude.{◌≤◌, ◌≡◌, length, get_or};
ghost use Rattle.laws.specs.Buffer.{filled};
ghost use Rattle.usi.specs.Module.{power_up};
ghost use Rattle.arbitration_rules.specs.Reply.{asked};
ghost use Rattle.night.specs.Lent.{Settles, placed};

use crate::Reply;
use arbitration_rules::MAX_MASTERS;
use usi::Usi;

// The reply, and the modules that the first entries of the table are to get.
#[derive(Clone, Copy)]
pub(crate) struct Ended {
    pub(crate) reply: Reply,
    pub(crate) entries: usize,
    pub(crate) modules: [Usi; MAX_MASTERS],
}

// Numbers stored from the first index on; the rest stays.
fn put_rounds(rounds: &mut [u32], list: &[u32])
    requires { length list.now ≤ length rounds.old }
    ensures { rounds.new ≡ filled list.now rounds.old }
{
    rounds[..list.len()].copy_from_slice(list);
}

// The night over fresh modules, its rounds put into their slice: what the table held plays no part.
pub(crate) fn settle(
    bytes: &[u8],
    parts: &[u32],
    counts: &[u32],
    acks: &[u8],
    rounds: &mut [u32],
    table_room: usize,
) -> Ended
    ensures { Settles
        (asked bytes.now parts.now counts.now acks.now)
        table_room rounds.old rounds.new result }
{
    let usi = Usi::power_up(0, 0);
    let fresh = [usi; MAX_MASTERS];
    let run = crate::rehearse(fresh, bytes, parts, counts, acks, rounds.len(), table_room);
    let refusal = run.refusal;
    let modules = run.modules;
    let reply = Reply {
        refusal,
        count: run.count,
    };
    if refusal.number != 0 {
        return Ended {
            reply,
            entries: 0,
            modules,
        };
    }
    let list = run.rounds;
    let count = counts.len();
    put_rounds(rounds, &list[..count]);
    Ended {
        reply,
        entries: count,
        modules,
    }
}

// The module for an entry; past the last one a fresh module.
fn module_at(ended: Ended, i: usize) -> Usi
    ensures { result ≡ get_or ended.modules i (power_up 0 0) }
{
    let modules = ended.modules;
    if i < MAX_MASTERS {
        return modules[i];
    }
    Usi::power_up(0, 0)
}

// The modules put into the first entries of the table; the rest stays.
pub(crate) fn place(table: &mut [Usi], ended: Ended) -> Reply
    requires { ended.entries ≤ length table.old }
    ensures { (table.new ≡ placed ended.entries ended.modules table.old)
        × (result ≡ ended.reply) }
{
    for i in 0..ended.entries {
        table[i] = module_at(ended, i);
    }
    ended.reply
}
