// The events of all samples: counted where the slice may be too short, and written.
ghost use Rattle.std.specs.Prelude.{◌≡◌, ◌+◌, ◌≤◌, ltb, length};
ghost use Rattle.std.proofs.lemmas.List.Edits.{sets};
ghost use Rattle.trace.specs.Limits.{max_samples};
ghost use Rattle.laws.specs.Buffer.{filled};
ghost use Rattle.decode.specs.Decode as decode;
ghost use Rattle.decode.specs.Stepping.{list_of};

use super::{Decoder, Listed};

// The decoder after the last sample, and how many events were written.
#[derive(Clone, Copy)]
pub(crate) struct Written {
    pub(crate) decoder: Decoder,
    pub(crate) count: usize,
}

// A count, with what one sample lists.
fn counted(count: usize, step: Listed) -> usize
    requires { count ≤ max_samples + max_samples }
    ensures { result ≡ count + length (list_of step) }
{
    match step {
        Listed::Nothing => count,
        Listed::One(_) => count + 1,
        Listed::Two(_, _) => count + 2,
    }
}

// What one sample lists, stored at a count.
fn put(events: &mut [u16], count: usize, step: Listed) -> usize
    requires { count + length (list_of step) ≤ length events.old }
    ensures next { result ≡ count + length (list_of step) }
    ensures stored { events.new ≡ sets events.old count (list_of step) }
{
    match step {
        Listed::Nothing => count,
        Listed::One(event) => {
            events[count] = event;
            count + 1
        }
        Listed::Two(first, second) => {
            events[count] = first;
            events[count + 1] = second;
            count + 2
        }
    }
}

// How many events the samples list.
fn count_events(levels: &[u8]) -> usize
    requires { length levels.now ≤ max_samples }
    ensures { result ≡ length (decode.events levels.now) }
{
    let mut decoder = Decoder::idle();
    let mut count: usize = 0;
    for level in levels {
        let step = decoder.next(*level);
        let listed = step.listed;
        count = counted(count, listed);
        decoder = step.decoder;
    }
    count
}

// Whether the room is less than the samples list (8). There are no more events than samples.
pub(crate) fn short(levels: &[u8], room: usize) -> bool
    requires { length levels.now ≤ max_samples }
    ensures { result ≡ ltb room (length (decode.events levels.now)) }
{
    if levels.len() <= room {
        return false;
    }
    room < count_events(levels)
}

// The events, into a slice with room for them; the decoder after the last sample.
pub(crate) fn write_events(levels: &[u8], events: &mut [u16]) -> Written
    requires { length (decode.events levels.now) ≤ length events.old }
    ensures last { result.decoder ≡ decode.final levels.now }
    ensures number { result.count ≡ length (decode.events levels.now) }
    ensures stored { events.new ≡ filled (decode.events levels.now) events.old }
{
    let mut decoder = Decoder::idle();
    let mut count: usize = 0;
    for level in levels {
        let step = decoder.next(*level);
        let listed = step.listed;
        count = put(events, count, listed);
        decoder = step.decoder;
    }
    Written { decoder, count }
}
