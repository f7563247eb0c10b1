// The timescale: 1, 10 or 100 and a unit, in one word or two.
ghost use Rattle.std.specs.Prelude.{◌≡◌, ◌≤◌};
ghost use Rattle.dump_reader.specs.Timescale as rule;

use crate::reader::{Part, Reader};
use crate::words::{Run, is_same, run_length};

// What power_of answers for a word that is none of the three numbers.
const NO_POWER: u8 = 3;

// The power of ten that a number is.
fn power_of(word: &[u8]) -> u8
    ensures { result ≡ rule.power_of word.now }
{
    if is_same(word, b"1") {
        return 0;
    }
    if is_same(word, b"10") {
        return 1;
    }
    if is_same(word, b"100") {
        return 2;
    }
    NO_POWER
}

fn number_of(power: u8) -> u64
    ensures value { result ≡ rule.number_of power }
    ensures upper_bound { result ≤ 100 }
{
    if power == 0 {
        return 1;
    }
    if power == 1 {
        return 10;
    }
    100
}

// A unit in femtoseconds, 0 where the word is none.
fn unit_of(word: &[u8]) -> u64
    ensures value { result ≡ rule.unit_of word.now }
    ensures upper_bound { result ≤ 1000000000000000 }
{
    if is_same(word, b"fs") {
        return 1;
    }
    if is_same(word, b"ps") {
        return 1_000;
    }
    if is_same(word, b"ns") {
        return 1_000_000;
    }
    if is_same(word, b"us") {
        return 1_000_000_000;
    }
    if is_same(word, b"ms") {
        return 1_000_000_000_000;
    }
    if is_same(word, b"s") {
        return 1_000_000_000_000_000;
    }
    0
}

// The unit after a number.
pub(crate) fn unit(mut reader: Reader, power: u8, word: &[u8]) -> Reader
    ensures { result ≡ rule.unit reader power word.now }
{
    let unit = unit_of(word);
    if unit == 0 {
        return reader.refused(27);
    }
    reader.timescale = number_of(power) * unit;
    reader.moved(Part::Close)
}

// The number, and the unit where it stands in the same word.
pub(crate) fn number(reader: Reader, word: &[u8]) -> Reader
    ensures { result ≡ rule.number reader word.now }
{
    let digits = run_length(word, Run::Digits);
    let power = power_of(&word[..digits]);
    if power == NO_POWER {
        return reader.refused(27);
    }
    if digits == word.len() {
        return reader.moved(Part::Unit(power));
    }
    unit(reader, power, &word[digits..])
}
