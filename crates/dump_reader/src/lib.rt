// A Value Change Dump (IEEE 1364) with two one-bit wires, SCL declared first, read as a trace.
#![tactic(auto)]

ghost use Rattle.std.specs.Prelude.{◌≡◌, length};
ghost use Rattle.laws.specs.Refusals.{answer};
ghost use Rattle.dump_reader.specs.DumpRead.{closed, may_end, refused_word, text_checks};
ghost use Rattle.dump_reader.specs.DumpRead.{dump_read, stamps_after, levels_after};

use laws::{Refusal, refused};
use reader::{Part, Reader};
use trace::MAX_SAMPLES;

mod words; // words.rt: words and their places
mod reader; // reader.rt: where in the grammar the reader is, and what it knows
mod timescale; // timescale.rt: the timescale
mod definitions; // definitions.rt: the definitions
mod values; // values.rt: stamps and values
mod passes; // passes.rt: all words, one after the other

// The longest text that is read.
pub const LONGEST_TEXT: usize = 60000;

// What a text holds: how many samples, and the unit of their stamps in femtoseconds, 0 if the text says none.
#[derive(Clone, Copy)]
pub struct DumpRead {
    pub count: usize,
    pub timescale: u64,
}

// Whether a text may end here: in no command and no section.
fn may_end(part: Part) -> bool
    ensures { result ≡ may_end part }
{
    match part {
        Part::Definitions => true,
        Part::Values => true,
        _ => false,
    }
}

// The number that a word was refused with, if one was.
fn refused_word(part: Part) -> Option<u8>
    ensures { result ≡ refused_word part }
{
    match part {
        Part::Refused(0) => None,
        Part::Refused(number) => Some(number),
        _ => None,
    }
}

// Whether the last line is closed.
fn is_closed(text: &[u8]) -> bool
    ensures { result ≡ closed text.now }
{
    if text.len() == 0 {
        return true;
    }
    text[text.len() - 1] == b'\n'
}

// What is refused of a text that was read to its end.
fn check(text: &[u8], reader: Reader) -> Result<(), Refusal>
    ensures { result ≡ answer (text_checks text.now reader) tt }
{
    let part = reader.part;
    if let Some(number) = refused_word(part) {
        return refused(number, reader.place);
    }
    if !(is_closed(text) & may_end(part)) {
        return refused(23, text.len());
    }
    if reader.wave.known != levels::MAX_LEVEL {
        return refused(24, text.len());
    }
    Ok(())
}

// Reads a text into two slices, whose rest stays. 26 comes first, then what is refused at the earliest place, then 6
// and 8; a refusal leaves the slices as they were.
pub fn read(text: &[u8], stamps: &mut [u32], levels: &mut [u8]) -> Result<DumpRead, Refusal>
    ensures answer { result ≡ dump_read
        text.now (length stamps.old) (length levels.old) }
    ensures stamped { stamps.new ≡ stamps_after result text.now stamps.old }
    ensures stored { levels.new ≡ levels_after result text.now levels.old }
{
    if text.len() > LONGEST_TEXT {
        return refused(26, 0);
    }
    let scanned = passes::scan(text);
    check(text, scanned.reader)?;
    let count = scanned.count;
    if count > MAX_SAMPLES {
        return refused(6, 0);
    }
    if (stamps.len() < count) | (levels.len() < count) {
        return refused(8, 0);
    }
    passes::write(text, stamps, levels);
    Ok(DumpRead {
        count,
        timescale: scanned.reader.timescale,
    })
}
