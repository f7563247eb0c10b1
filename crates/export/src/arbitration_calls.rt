// Arbitration for callers in C or Rust: the reply as a number, and two tables of an entry for each message.
ghost use Rattle.std.specs.Prelude.{◌≡◌, map, ◌<◌, ◌≤◌, length, take};
ghost use Rattle.laws.specs.Buffer.{filled};
ghost use Rattle.arbitration_rules.specs.Limits.{max_masters};
ghost use Rattle.arbitration_rules.specs.Reply.{asked, refused as refused_reply};
ghost use Rattle.export.specs.Packed.{packed as packed_module};
ghost use Rattle.export.specs.Entries.{Numbers};
ghost use Rattle.export.specs.Arbitration.{Arbitrates, gave, lent, packed_reply, packed_seat};

use arbitration::Arbitrated;
use arbitration_rules::{MAX_MASTERS, Seat};
use laws::Refusal;
use usi::Usi;

// The answer of a reply.
fn reply(a: Arbitrated) -> u64
    requires { (a.refusal.place < 65536) × (a.count < 65536) }
    ensures { result ≡ packed_reply a }
{
    let found = a.refusal;
    (found.number as u64) + 256 * (found.place as u64) + 16777216 * (a.count as u64)
}

// The answer of a refusal.
fn refused(found: Refusal) -> u64
    requires { found.place < 65536 }
    ensures { result ≡ packed_reply (refused_reply found) }
{
    (found.number as u64) + 256 * (found.place as u64)
}

fn seat_number(seat: Seat) -> u32
    ensures { result ≡ packed_seat seat }
{
    let rest = 2 * (seat.cleared as u32) + 32 * (seat.position as u32);
    if seat.contending {
        return 1 + rest;
    }
    rest
}

// Each entry as a number, put into the table one after the other; the rest stays.
fn put<T: Copy, N: Copy, F: Fn(T) -> N>(entries: &[T], table: &mut [N], number: F)
    requires room { length entries.now ≤ length table.old }
    requires callable { F.IsAlwaysCallable number }
    ensures { (numbered : T → N) → Numbers numbered (F.post number)
        → table.new ≡ filled (map numbered entries.now) table.old }
{
    for (i, entry) in entries.iter().enumerate() {
        table[i] = number(*entry);
    }
}

// The first of the modules, so many.
pub(crate) fn put_modules(modules: [Usi; MAX_MASTERS], count: usize, table: &mut [u64])
    requires { (count ≤ max_masters) × (count ≤ length table.old) }
    ensures { table.new ≡ filled (map packed_module (take count modules)) table.old }
{
    put(&modules[..count], table, crate::packed);
}

// The first of the seats, so many.
fn put_seats(seats: [Seat; MAX_MASTERS], count: usize, table: &mut [u32])
    requires { (count ≤ max_masters) × (count ≤ length table.old) }
    ensures { table.new ≡ filled (map packed_seat (take count seats)) table.old }
{
    put(&seats[..count], table, seat_number);
}

// The arbitration of messages that lie in bytes one after the other, with the length of every part, message after
// message, and how many parts each message has: refused by 12, 13, 14, 15, 16 and 8 in this order, and then everything
// lent stays as it was. What a run returns is what follows from messages and acknowledges alone (01: demand 3).
#[unsafe(no_mangle)]
pub extern "C" fn kan_arbitrate(
    bytes: &[u8],
    parts: &[u32],
    counts: &[u32],
    acks: &[u8],
    carried: &mut [u8],
    levels: &mut [u8],
    modules: &mut [u64],
    seats: &mut [u32],
) -> u64
    ensures { Arbitrates
        (lent
        (asked bytes.now parts.now counts.now acks.now)
        carried.old levels.old modules.old seats.old)
        (gave result carried.new levels.new modules.new seats.new) }
{
    let masters = counts.len();
    if (modules.len() < masters) | (seats.len() < masters) {
        if let Err(found) = arbitration_checks::settle(bytes, parts, counts, acks) {
            return refused(found);
        }
        return 8;
    }
    let table = [Usi::power_up(0, 0); MAX_MASTERS];
    let done = arbitration::rehearse(table, bytes, parts, counts, acks, carried, levels);
    let answer = done.reply;
    let found = answer.refusal;
    if found.number != 0 {
        return refused(found);
    }
    let final_modules = done.modules;
    put_modules(final_modules, masters, modules);
    let final_seats = answer.seats;
    put_seats(final_seats, masters, seats);
    reply(answer)
}
