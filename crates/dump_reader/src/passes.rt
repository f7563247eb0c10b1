// The words of a text, judged one after the other: once to count the samples, and once to write them.
ghost use Rattle.std.specs.Prelude.{◌≡◌, ◌+◌, ◌≤◌, length};
ghost use Rattle.std.proofs.lemmas.List.Edits.{sets};
ghost use Rattle.laws.specs.Buffer.{filled};
ghost use Rattle.dump_reader.specs.Reading.{step, completed, final, stamps_in, levels_in, stamp_of, level_of};
ghost use Rattle.dump_reader.specs.DumpRead.{longest_text};

use crate::definitions::{
    close, command, declare, name, names, scope_type, skip, wire_size, wire_type,
};
use crate::reader::{Part, Reader, Wave};
use crate::timescale::{number, unit};
use crate::values::change;
use crate::words::{Word, bytes_of, next_word};

// The reader after the last word, and how many samples there are.
#[derive(Clone, Copy)]
pub(crate) struct Scanned {
    pub(crate) reader: Reader,
    pub(crate) count: usize,
}

// The reader after one more word.
fn judge(text: &[u8], reader: Reader, word: Word) -> Reader
    ensures { result ≡ step text.now reader word }
{
    let part = reader.part;
    let bytes = bytes_of(text, word);
    let mut here = reader;
    here.place = word.start;
    match part {
        Part::Definitions => here.moved(command(bytes, here.wires)),
        Part::Note => here.moved(skip(bytes, Part::Note, Part::Definitions)),
        Part::Number => number(here, bytes),
        Part::Unit(power) => unit(here, power, bytes),
        Part::Close => here.moved(close(bytes, Part::Definitions)),
        Part::ScopeType => here.moved(scope_type(bytes)),
        Part::ScopeName => here.moved(name(bytes, Part::Close)),
        Part::WireType => here.moved(wire_type(bytes)),
        Part::WireSize => here.moved(wire_size(bytes)),
        Part::Identifier => declare(text, here, word),
        Part::Name => here.moved(name(bytes, Part::Names)),
        Part::Names => here.moved(names(bytes)),
        Part::Opening => here.moved(close(bytes, Part::Values)),
        Part::Values => change(text, here, bytes, false),
        Part::Section => change(text, here, bytes, true),
        Part::Comment => here.moved(skip(bytes, Part::Comment, Part::Values)),
        Part::Refused(_) => reader,
    }
}

// A count, with the sample that is complete where another level is shown.
fn counted(count: usize, wave: Wave, shown: u8) -> usize
    requires { count ≤ longest_text }
    ensures { result ≡ count + length (completed stamp_of wave shown) }
{
    if wave.shown == shown {
        return count;
    }
    count + 1
}

// The same, stored at the count.
fn put(stamps: &mut [u32], levels: &mut [u8], count: usize, wave: Wave, shown: u8) -> usize
    requires shown_in_bounds { count + length (completed stamp_of wave shown) ≤ length stamps.old }
    requires shown_in_bounds_2 { count + length (completed level_of wave shown) ≤ length levels.old }
    ensures next { result ≡ count + length (completed stamp_of wave shown) }
    ensures stamped { stamps.new ≡ sets stamps.old count (completed stamp_of wave shown) }
    ensures stored { levels.new ≡ sets levels.old count (completed level_of wave shown) }
{
    if wave.shown == shown {
        return count;
    }
    stamps[count] = wave.stamp;
    levels[count] = wave.level;
    count + 1
}

// The reader after all words, and how many samples are complete.
pub(crate) fn scan(text: &[u8]) -> Scanned
    requires { length text.now ≤ longest_text }
    ensures last { result.reader ≡ final text.now }
    ensures number { result.count ≡ length (stamps_in text.now) }
{
    let mut reader = Reader::start();
    let mut count: usize = 0;
    let mut word = next_word(text, 0);
    // no count: the next word is sought where this one ends
    while word.end < text.len() {
        let next = judge(text, reader, word);
        count = counted(count, reader.wave, next.wave.shown);
        reader = next;
        word = next_word(text, word.end + 1);
    }
    count = counted(count, reader.wave, reader.wave.level);
    Scanned { reader, count }
}

// The samples, into slices with room for them.
pub(crate) fn write(text: &[u8], stamps: &mut [u32], levels: &mut [u8])
    requires text_in_bounds { length (stamps_in text.now) ≤ length stamps.old }
    requires text_in_bounds_2 { length (levels_in text.now) ≤ length levels.old }
    ensures stamped { stamps.new ≡ filled (stamps_in text.now) stamps.old }
    ensures stored { levels.new ≡ filled (levels_in text.now) levels.old }
{
    let mut reader = Reader::start();
    let mut count: usize = 0;
    let mut word = next_word(text, 0);
    // no count: the next word is sought where this one ends
    while word.end < text.len() {
        let next = judge(text, reader, word);
        count = put(stamps, levels, count, reader.wave, next.wave.shown);
        reader = next;
        word = next_word(text, word.end + 1);
    }
    put(stamps, levels, count, reader.wave, reader.wave.level);
}
