// The levels and stamps of an event list.
ghost use Rattle.std.specs.Prelude.{◌≡◌, [], ◌∷◌, ◌++◌, ◌+◌, ◌*◌, ◌≤◌, length};
ghost use Rattle.std.proofs.lemmas.List.Edits.{sets};
ghost use Rattle.trace.specs.Limits.{max_samples, largest_stamp};
ghost use Rattle.laws.specs.Buffer.{filled};
ghost use Rattle.encode.specs.Encode.{byte_bits, draw_bit, draw_bits, draw_event, drawing, stamps_from, last_stamp};

use trace::{NACK, PARTIAL, REPEATED_START, START, STOP};

// The two levels of a bit.
fn put_bit(levels: &mut [u8], at: usize, bit: bool)
    requires { at + 2 ≤ length levels.old }
    ensures { levels.new ≡ sets levels.old at (draw_bit bit) }
{
    let low = 2 * (bit as u8);
    levels[at] = low;
    levels[at + 1] = low + 1;
}

// The levels of a byte and its ninth bit.
fn put_byte(levels: &mut [u8], at: usize, byte: u8, ninth: bool)
    requires { at + 18 ≤ length levels.old }
    ensures { levels.new ≡ sets levels.old at (draw_bits (byte_bits byte ++ ninth ∷ [])) }
{
    for k in 0..8 {
        let bit = (byte >> (7 - k)) % 2 == 1;
        put_bit(levels, at + 2 * k, bit);
    }
    put_bit(levels, at + 16, ninth);
}

// Three levels, and the place after them.
fn put_three(levels: &mut [u8], at: usize, first: u8, second: u8, third: u8) -> usize
    requires { at + 3 ≤ length levels.old }
    ensures next { result ≡ at + 3 }
    ensures stored { levels.new ≡ sets levels.old at (first ∷ second ∷ third ∷ []) }
{
    levels[at] = first;
    levels[at + 1] = second;
    levels[at + 2] = third;
    at + 3
}

// The levels of an event, and the place after them.
fn put_event(levels: &mut [u8], at: usize, event: u16) -> usize
    requires { at + length (draw_event event) ≤ length levels.old }
    ensures next { result ≡ at + length (draw_event event) }
    ensures stored { levels.new ≡ sets levels.old at (draw_event event) }
{
    match event {
        0..=255 => {
            put_byte(levels, at, event as u8, false);
            at + 18
        }
        256..=511 => {
            put_byte(levels, at, (event - NACK) as u8, true);
            at + 18
        }
        START => {
            levels[at] = 1;
            at + 1
        }
        REPEATED_START => put_three(levels, at, 2, 3, 1),
        STOP => put_three(levels, at, 0, 1, 3),
        PARTIAL => at,
        _ => at,
    }
}

// All levels, into a slice with room for them.
pub(crate) fn write_levels(events: &[u16], levels: &mut [u8])
    requires { length (drawing events.now) ≤ length levels.old }
    ensures { levels.new ≡ filled (drawing events.now) levels.old }
{
    levels[0] = 3;
    let mut at: usize = 1;
    for event in events {
        at = put_event(levels, at, *event);
    }
}

// The stamps, into a slice with room for them.
pub(crate) fn write_stamps(start: u32, gap: u32, count: usize, stamps: &mut [u32])
    requires { (count ≤ max_samples) × (last_stamp start gap count ≤ largest_stamp) × (count ≤ length stamps.old) }
    ensures { stamps.new ≡ filled (stamps_from start gap count) stamps.old }
{
    for i in 0..count {
        stamps[i] = start + gap * (i as u32);
    }
}
