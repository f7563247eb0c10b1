// What a round carries: its number and its module for each message that was still in at its end.
ghost use Rattle.std.specs.Prelude.{◌+◌, ◌<◌, ◌≤◌, ◌≡◌, cond};
ghost use Rattle.arbitration_rules.specs.Limits.{max_masters};
ghost use Rattle.night.specs.Carried.{entered_by};

use arbitration_rules::{MAX_MASTERS, Seat};
use usi::Usi;

// A night between two rounds: how many there were, the round of each message, 0 while it waits, and the table.
#[derive(Clone, Copy)]
pub(crate) struct Standing {
    pub(crate) count: u32,
    pub(crate) rounds: [u32; MAX_MASTERS],
    pub(crate) modules: [Usi; MAX_MASTERS],
}

// The round of a message.
fn round_of(earlier: u32, carried: bool, number: u32) -> u32
    ensures { result ≡ cond carried number earlier }
{
    if carried {
        return number;
    }
    earlier
}

// Its module.
fn module_of(held: Usi, carried: bool, left: Usi) -> Usi
    ensures { result ≡ cond carried left held }
{
    if carried {
        return left;
    }
    held
}

// The seat of the next message that waits.
fn seat_after(seat: usize, waits: bool) -> usize
    requires { seat < max_masters }
    ensures { result ≡ cond waits (seat + 1) seat }
{
    if waits {
        return seat + 1;
    }
    seat
}

// The night after a round that left these seats and modules, one after the other, of the messages that waited.
pub(crate) fn enter(
    standing: Standing,
    count: usize,
    seats: [Seat; MAX_MASTERS],
    left: [Usi; MAX_MASTERS],
) -> Standing
    requires { (count ≤ max_masters) × (standing.count < max_masters) }
    ensures { result ≡ entered_by count seats left standing }
{
    let number = standing.count + 1;
    let mut rounds = standing.rounds;
    let mut modules = standing.modules;
    let mut seat: usize = 0;
    for i in 0..count {
        let earlier = rounds[i];
        let waits = earlier == 0;
        let own = seats[seat];
        let carried = waits & own.contending;
        let usi = module_of(modules[i], carried, left[seat]);
        rounds[i] = round_of(earlier, carried, number);
        modules[i] = usi;
        seat = seat_after(seat, waits);
    }
    Standing {
        count: number,
        rounds,
        modules,
    }
}
