// Traces for callers in C or Rust.
ghost use Rattle.std.specs.Prelude.{◌≡◌, ◌<◌, length};
ghost use Rattle.decode.specs.DecodeReply.{decoded, decoded_numbers, events_after};
ghost use Rattle.encode.specs.EncodeReply.{encoded, encoded_numbers, stamps_after, levels_after};
ghost use Rattle.phases.specs.declared.Mode.TheVariants as mode;
ghost use Rattle.phases.specs.DecodedIn.{decoded_in};
ghost use Rattle.export.specs.Replies.{packed_decoded, packed_encoded};

use decode::Decoded;
use laws::Refusal;
use phases::Mode;

fn decode_answer(d: Result<Decoded, Refusal>) -> u64
    requires { ((decoded_numbers d).count < 65536) × ((decoded_numbers d).place < 65536) }
    ensures { result ≡ packed_decoded d }
{
    match d {
        Ok(read) => {
            16777216 * (read.count as u64)
                + 1099511627776 * crate::digit(read.framed)
                + 281474976710656 * (read.pending as u64)
                + 72057594037927936 * (read.value as u64)
        }
        Err(refusal) => (refusal.number as u64) + 256 * (refusal.place as u64),
    }
}

fn encode_answer(e: Result<usize, Refusal>) -> u64
    requires { (encoded_numbers e).count < 65536 }
    ensures { result ≡ packed_encoded e }
{
    match e {
        Ok(count) => 256 * (count as u64),
        Err(refusal) => refusal.number as u64,
    }
}

// The events of a trace.
#[unsafe(no_mangle)]
pub extern "C" fn kan_bus_decode(stamps: &[u32], levels: &[u8], events: &mut [u16]) -> u64
    ensures answer { result ≡ packed_decoded
        (decoded stamps.now levels.now (length events.old)) }
    ensures buffer { events.new ≡ events_after
        (decoded stamps.now levels.now (length events.old))
        levels.now events.old }
{
    decode_answer(decode::decode(stamps, levels, events))
}

// The events of a trace with stamps in units of 100 ns, 18 for a phase of SCL too short for Standard-mode.
#[unsafe(no_mangle)]
pub extern "C" fn kan_bus_decode_standard(stamps: &[u32], levels: &[u8], events: &mut [u16]) -> u64
    ensures answer { result ≡ packed_decoded
        (decoded_in mode.Standard stamps.now levels.now (length events.old)) }
    ensures buffer { events.new ≡ events_after
        (decoded_in mode.Standard stamps.now levels.now (length events.old))
        levels.now events.old }
{
    decode_answer(phases::decode_in(Mode::Standard, stamps, levels, events))
}

// The same for Fast-mode.
#[unsafe(no_mangle)]
pub extern "C" fn kan_bus_decode_fast(stamps: &[u32], levels: &[u8], events: &mut [u16]) -> u64
    ensures answer { result ≡ packed_decoded
        (decoded_in mode.Fast stamps.now levels.now (length events.old)) }
    ensures buffer { events.new ≡ events_after
        (decoded_in mode.Fast stamps.now levels.now (length events.old))
        levels.now events.old }
{
    decode_answer(phases::decode_in(Mode::Fast, stamps, levels, events))
}

// The trace of an event list.
#[unsafe(no_mangle)]
pub extern "C" fn kan_bus_encode(
    events: &[u16],
    start: u32,
    gap: u32,
    stamps: &mut [u32],
    levels: &mut [u8],
) -> u64
    ensures answer { result ≡ packed_encoded
        (encoded events.now start gap (length stamps.old) (length levels.old)) }
    ensures stamp_buffer { stamps.new ≡ stamps_after
        (encoded events.now start gap (length stamps.old) (length levels.old))
        start gap stamps.old }
    ensures level_buffer { levels.new ≡ levels_after
        (encoded events.now start gap (length stamps.old) (length levels.old))
        events.now levels.old }
{
    encode_answer(encode::encode(events, start, gap, stamps, levels))
}
