// An event in words.
ghost use Rattle.std.specs.Prelude.{◌≡◌};
ghost use Rattle.text.specs.Output.{Put};
ghost use Rattle.trace_text.specs.Events.{direction_text, acknowledge_text, byte_text, event_text};

use text::{put_byte, put_bytes, put_hex_byte};
use trace::{NACK, PARTIAL, REPEATED_START, START, STOP};

// What stands after a byte: the direction, where the byte is an address.
fn put_direction(out: &mut [u8], at: usize, byte: u8, addressed: bool) -> usize
    ensures { Put out.old at (direction_text addressed byte) out.new result }
{
    if !addressed {
        return put_byte(out, at, b' ');
    }
    if byte % 2 == 1 {
        return put_bytes(out, at, b" read ");
    }
    put_bytes(out, at, b" write ")
}

fn put_acknowledge(out: &mut [u8], at: usize, event: u16) -> usize
    ensures { Put out.old at (acknowledge_text event) out.new result }
{
    if event < NACK {
        return put_bytes(out, at, b"ACK");
    }
    put_bytes(out, at, b"NACK")
}

fn put_transfer(out: &mut [u8], at: usize, event: u16, addressed: bool) -> usize
    ensures { Put out.old at (byte_text addressed event) out.new result }
{
    let byte = (event % 256) as u8;
    let past_byte = put_hex_byte(out, at, byte);
    let past_direction = put_direction(out, past_byte, byte, addressed);
    put_acknowledge(out, past_direction, event)
}

// An event's words; the byte after a START is an address.
pub fn show(out: &mut [u8], at: usize, event: u16, addressed: bool) -> usize
    ensures { Put out.old at (event_text addressed event) out.new result }
{
    match event {
        START => put_bytes(out, at, b"START"),
        REPEATED_START => put_bytes(out, at, b"repeated START"),
        STOP => put_bytes(out, at, b"STOP"),
        PARTIAL => put_bytes(out, at, b"cut byte"),
        _ => put_transfer(out, at, event, addressed),
    }
}
