// A trace as a Value Change Dump, and such a dump read, for callers in C or Rust.
ghost use Rattle.std.specs.Prelude.{◌≡◌, ◌<◌, length, drop};
ghost use Rattle.text.specs.Output.{Put};
ghost use Rattle.dump.specs.Text.{dump_text};
ghost use Rattle.dump.specs.Dumped.{dumped, dumped_numbers, text_after};
ghost use Rattle.trace.specs.Limits.{max_samples};
ghost use Rattle.dump_reader.specs.DumpRead.{dump_read, stamps_after, levels_after};
ghost use Rattle.export.specs.Replies.{packed_dumped, read_numbers, packed_dump_read};

use dump_reader::DumpRead;
use laws::Refusal;
use trace::MAX_SAMPLES;

fn dump_answer(d: Result<usize, Refusal>) -> u64
    requires { ((dumped_numbers d).count < 73856) × ((dumped_numbers d).place < 65536) }
    ensures { result ≡ packed_dumped d }
{
    match d {
        Ok(count) => 16777216 * (count as u64),
        Err(refusal) => (refusal.number as u64) + 256 * (refusal.place as u64),
    }
}

// The whole text.
#[unsafe(no_mangle)]
pub extern "C" fn kan_bus_dump(stamps: &[u32], levels: &[u8], out: &mut [u8]) -> u64
    ensures answer { result ≡ packed_dumped
        (dumped stamps.now levels.now (length out.old)) }
    ensures buffer { out.new ≡ text_after
        (dumped stamps.now levels.now (length out.old))
        stamps.now levels.now out.old }
{
    dump_answer(dump::dump(stamps, levels, out))
}

// The text from a byte on, as much of it as there is room for.
#[unsafe(no_mangle)]
pub extern "C" fn kan_bus_dump_piece(
    stamps: &[u32],
    levels: &[u8],
    from: usize,
    out: &mut [u8],
) -> usize
    ensures { Put out.old 0
        (drop from (dump_text stamps.now levels.now)) out.new result }
{
    dump::piece(stamps, levels, from, out)
}

fn dump_read_answer(d: Result<DumpRead, Refusal>) -> u64
    requires { ((read_numbers d).count < 65536) × ((read_numbers d).place < 65536) }
    ensures { result ≡ packed_dump_read d }
{
    match d {
        Ok(read) => 16777216 * (read.count as u64),
        Err(found) => (found.number as u64) + 256 * (found.place as u64),
    }
}

fn timescale_of(d: Result<DumpRead, Refusal>) -> u64
    ensures { result ≡ (read_numbers d).timescale }
{
    match d {
        Ok(read) => read.timescale,
        Err(_) => 0,
    }
}

// A dump read into two slices.
#[unsafe(no_mangle)]
pub extern "C" fn kan_bus_read_dump(text: &[u8], stamps: &mut [u32], levels: &mut [u8]) -> u64
    ensures answer { result ≡ packed_dump_read
        (dump_read text.now (length stamps.old) (length levels.old)) }
    ensures stamped { stamps.new ≡ stamps_after
        (dump_read text.now (length stamps.old) (length levels.old))
        text.now stamps.old }
    ensures stored { levels.new ≡ levels_after
        (dump_read text.now (length stamps.old) (length levels.old))
        text.now levels.old }
{
    dump_read_answer(dump_reader::read(text, stamps, levels))
}

// The unit of a dump's stamps in femtoseconds: 0 where it says none, and where the text is refused.
#[unsafe(no_mangle)]
pub extern "C" fn kan_bus_dump_timescale(text: &[u8]) -> u64
    ensures { result ≡ (read_numbers (dump_read text.now max_samples max_samples)).timescale }
{
    let mut stamps = [0u32; MAX_SAMPLES];
    let mut levels = [0u8; MAX_SAMPLES];
    timescale_of(dump_reader::read(text, &mut stamps, &mut levels))
}
