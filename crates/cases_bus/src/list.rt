// Long lists: stamps that count up, and an event list of many frames.
ghost use Rattle.std.specs.Prelude.{◌≤◌, length};

use trace::{REPEATED_START, START, STOP};

// The byte A5h, acknowledged.
const BYTE: u16 = 0xa5;

pub fn count_up(stamps: &mut [u32]) {
    for (i, stamp) in stamps.iter_mut().enumerate() {
        *stamp = (i % 0x1_0000_0000) as u32;
    }
}

// A group of events more, as far as there is room, and the next position.
fn push(events: &mut [u16], at: usize, group: &[u16]) -> usize {
    let mut next = at;
    for event in group {
        if next < events.len() {
            events[next] = *event;
            next += 1;
        }
    }
    next
}

fn push_times(events: &mut [u16], at: usize, group: &[u16], times: usize) -> usize {
    let mut next = at;
    for _ in 0..times {
        next = push(events, next, group);
    }
    next
}

// So many frames: the first has the bytes that the others leave, its last ones after a repeated START each.
pub fn frames(events: &mut [u16], frames: usize, bytes: usize, repeats: usize) -> usize
    ensures { result ≤ length events.new }
{
    let others = frames.saturating_sub(1);
    let first = bytes.saturating_sub(others).saturating_sub(repeats);
    let past_start = push(events, 0, &[START]);
    let past_bytes = push_times(events, past_start, &[BYTE], first);
    let past_repeats = push_times(events, past_bytes, &[REPEATED_START, BYTE], repeats);
    let past_stop = push(events, past_repeats, &[STOP]);
    let past_frames = push_times(events, past_stop, &[START, BYTE, STOP], others);
    past_frames.min(events.len())
}
