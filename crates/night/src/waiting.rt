// The messages that wait, put together anew: of lists that lie one after the other in one, those that wait.
ghost use Rattle.std.specs.Prelude.{◌+◌, ◌≤◌, ◌≡◌, length, take};
ghost use Rattle.std.proofs.lemmas.List.Edits.{sets};
ghost use Rattle.arbitration_rules.specs.Limits.{max_masters};
ghost use Rattle.arbitration_messages.specs.Marks.{max_sent};
ghost use Rattle.night.specs.Waiting.{Holds, joined_waiting};

use arbitration_messages::MAX_SENT;
use arbitration_rules::MAX_MASTERS;

// Bytes, counts or lengths one after the other, as many as size says.
#[derive(Clone, Copy)]
pub(crate) struct Waiting<T> {
    list: [T; MAX_SENT],
    size: usize,
}

impl<T: Copy> Waiting<T> {
    // Those that there are.
    pub(crate) fn items(&self) -> &[T]
        requires { self.now.size ≤ length self.now.list }
        ensures { result.now ≡ take self.now.size self.now.list }
    {
        let list = &self.list[..];
        &list[..self.size]
    }
}

// Items stored one after the other from an index.
fn put<T: Copy>(list: &mut [T], at: usize, items: &[T])
    requires { at + length items.now ≤ length list.old }
    ensures { list.new ≡ sets list.old at items.now }
{
    list[at..at + items.len()].copy_from_slice(items);
}

// Of lists that lie one after the other in one, each of its length, those that wait; blank stands past them.
pub(crate) fn joined<T: Copy>(
    rounds: [u32; MAX_MASTERS],
    lengths: &[u32],
    list: &[T],
    blank: T,
) -> Waiting<T>
    requires { (length lengths.now ≤ max_masters) × (length list.now ≤ max_sent) }
    ensures { Holds (joined_waiting rounds lengths.now list.now) result.list result.size }
{
    let mut out = [blank; MAX_SENT];
    let mut size: usize = 0;
    let mut rest = list;
    for (i, length) in lengths.iter().enumerate() {
        let (own, others) = rest.split_at(rest.len().min(*length as usize));
        if rounds[i] == 0 {
            put(&mut out, size, own);
            size += own.len();
        }
        rest = others;
    }
    Waiting { list: out, size }
}
