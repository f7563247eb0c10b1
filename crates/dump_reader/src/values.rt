// The stamps and values: what each word of them makes of the reader.
ghost use Rattle.std.specs.Prelude.{◌≡◌};
ghost use Rattle.dump_reader.specs.Values as rule;

use crate::definitions::close;
use crate::reader::{Part, Reader, Wave};
use crate::words::{bytes_of, first_byte, is_same, tail};
use text::{NotNumber, decimal};
use trace::MAX_STAMP;

// A level byte with one line high or low.
// Which line is a case of the rule (`with_line`): two functions would state it twice.
fn with_line(level: u8, scl: bool, high: bool) -> u8
    ensures { result ≡ rule.with_line level scl high }
{
    if scl {
        return levels::level_of(high, levels::sda(level));
    }
    levels::level_of(levels::scl(level), high)
}

// A value of SCL, or else of SDA.
fn valued(mut wave: Wave, scl: bool, high: bool) -> Wave
    ensures { result ≡ rule.valued wave scl high }
{
    wave.known = with_line(wave.known, scl, true);
    wave.level = with_line(wave.level, scl, high);
    wave
}

// A stamp; the level so far is that of the sample before, where there was a stamp.
fn stamped(mut wave: Wave, stamp: u32) -> Wave
    ensures { result ≡ rule.stamped wave stamp }
{
    if wave.stamped {
        wave.shown = wave.level;
    }
    wave.stamped = true;
    wave.stamp = stamp;
    wave
}

// Whether a stamp may not follow since a wire has no value.
fn is_missing(wave: Wave) -> bool
    ensures { result ≡ rule.missing wave }
{
    wave.stamped & (wave.known != levels::MAX_LEVEL)
}

// A stamp: above the last one, after a value for each wire, of 32 bits, and in no section.
// Whether it stands in a section is a case of the rule (`judge`).
fn judge(reader: Reader, stamp: u64, inside: bool) -> Reader
    ensures { result ≡ rule.judge reader stamp inside }
{
    let wave = reader.wave;
    if wave.stamped & (stamp <= wave.stamp as u64) {
        return reader.refused(21);
    }
    if is_missing(wave) {
        return reader.refused(24);
    }
    if stamp > MAX_STAMP {
        return reader.refused(25);
    }
    if inside {
        return reader.refused(27);
    }
    reader.waved(stamped(wave, stamp as u32))
}

fn read_stamp(reader: Reader, number: Result<u64, NotNumber>, inside: bool) -> Reader
    ensures { result ≡ rule.read_stamp reader number inside }
{
    match number {
        Ok(stamp) => judge(reader, stamp, inside),
        Err(NotNumber::TooLarge) => judge(reader, u64::MAX, inside),
        Err(NotNumber::Bad) => reader.refused(27),
    }
}

// A value for an identifier.
fn assign(text: &[u8], reader: Reader, identifier: &[u8], high: bool) -> Reader
    ensures { result ≡ rule.assign text.now reader identifier.now high }
{
    let wave = reader.wave;
    let scl = is_same(identifier, bytes_of(text, reader.scl));
    let sda = is_same(identifier, bytes_of(text, reader.sda));
    if identifier.len() == 0 {
        return reader.refused(27);
    }
    if !(scl | sda) {
        return reader.refused(22);
    }
    if !wave.stamped {
        return reader.refused(27);
    }
    reader.waved(valued(wave, scl, high))
}

// x or z, which an identifier must follow.
fn unknown(word: &[u8]) -> Part
    ensures { result ≡ rule.unknown word.now }
{
    if word.len() < 2 {
        return Part::Refused(27);
    }
    Part::Refused(20)
}

fn is_dump(word: &[u8]) -> bool
    ensures { result ≡ rule.dump word.now }
{
    is_same(word, b"$dumpvars")
        | is_same(word, b"$dumpall")
        | is_same(word, b"$dumpon")
        | is_same(word, b"$dumpoff")
}

// A command among the values, or any other word.
// Whether it stands in a section is a case of the rule (`command`).
fn command(word: &[u8], inside: bool) -> Part
    ensures { result ≡ rule.command word.now inside }
{
    if is_same(word, b"$var") {
        return Part::Refused(24);
    }
    if inside {
        return close(word, Part::Values);
    }
    if is_same(word, b"$comment") {
        return Part::Comment;
    }
    if is_dump(word) {
        return Part::Section;
    }
    Part::Refused(27)
}

// A word among the values, in a section or not, by its first byte.
pub(crate) fn change(text: &[u8], reader: Reader, word: &[u8], inside: bool) -> Reader
    ensures { result ≡ rule.change text.now reader word.now inside }
{
    let first = first_byte(word);
    match first {
        b'#' => read_stamp(reader, decimal(tail(word, 1)), inside),
        b'0' => assign(text, reader, tail(word, 1), false),
        b'1' => assign(text, reader, tail(word, 1), true),
        b'x' => reader.moved(unknown(word)),
        b'X' => reader.moved(unknown(word)),
        b'z' => reader.moved(unknown(word)),
        b'Z' => reader.moved(unknown(word)),
        _ => reader.moved(command(word, inside)),
    }
}
