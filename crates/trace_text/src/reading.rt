// What a line of an event list says.
ghost use Rattle.std.specs.Prelude.{◌≡◌};
ghost use Rattle.laws.specs.Same.{same as same_of};
ghost use Rattle.trace_text.specs.Words.{follows_byte, alone_in, acknowledged_in, directed_in};
ghost use Rattle.trace_text.specs.Words.{transfer_in, pair_in, said_in};

use check::same;
use rig_lines::numbers::{hex_byte, value};
use text::{after_word, first_word};
use trace::{NACK, PARTIAL, REPEATED_START, START, STOP};

const LARGEST_BYTE: u64 = 255;

// No Result: a line of numbers is no failure, and its reader goes on with it.
#[derive(Clone, Copy)]
pub enum Said {
    Event(u16),
    // event numbers, one to a word, or what is none
    Numbers,
    Malformed,
    // `write` with an odd byte, or `read` with an even one
    WrongDirection,
}

fn is_word(word: &[u8], name: &[u8]) -> bool
    ensures { result ≡ same_of word.now name.now }
{
    same(word, name)
}

// An event that is all the line says.
fn alone(line: &[u8], event: u16) -> Said
    ensures { result ≡ alone_in line.now event }
{
    if first_word(line).len() == 0 {
        return Said::Event(event);
    }
    Said::Malformed
}

// The acknowledge after a byte.
fn acknowledged(line: &[u8], byte: u8) -> Said
    ensures { result ≡ acknowledged_in line.now byte }
{
    let word = first_word(line);
    let rest = after_word(line);
    if is_word(word, b"ACK") {
        return alone(rest, byte as u16);
    }
    if is_word(word, b"NACK") {
        return alone(rest, (byte as u16) + NACK);
    }
    Said::Malformed
}

// A byte's direction, where it is said, and its acknowledge.
fn directed(line: &[u8], byte: u8) -> Said
    ensures { result ≡ directed_in line.now byte }
{
    let word = first_word(line);
    let rest = after_word(line);
    if is_word(word, b"write") {
        if byte % 2 == 1 {
            return Said::WrongDirection;
        }
        return acknowledged(rest, byte);
    }
    if is_word(word, b"read") {
        if byte % 2 == 0 {
            return Said::WrongDirection;
        }
        return acknowledged(rest, byte);
    }
    acknowledged(line, byte)
}

fn follows_byte(word: &[u8]) -> bool
    ensures { result ≡ follows_byte word.now }
{
    is_word(word, b"ACK")
        | is_word(word, b"NACK")
        | is_word(word, b"write")
        | is_word(word, b"read")
}

// A byte by what follows it, or event numbers.
fn transfer(line: &[u8]) -> Said
    ensures { result ≡ transfer_in line.now }
{
    let rest = after_word(line);
    if !follows_byte(first_word(rest)) {
        return Said::Numbers;
    }
    let byte = value(hex_byte(first_word(line)));
    if byte > LARGEST_BYTE {
        return Said::Malformed;
    }
    directed(rest, byte as u8)
}

// An event of two words, of which the first was read.
fn pair(line: &[u8], name: &[u8], event: u16) -> Said
    ensures { result ≡ pair_in line.now name.now event }
{
    if is_word(first_word(line), name) {
        return alone(after_word(line), event);
    }
    Said::Malformed
}

// What a line that has a word says.
pub fn parse(line: &[u8]) -> Said
    ensures { result ≡ said_in line.now }
{
    let word = first_word(line);
    let rest = after_word(line);
    if is_word(word, b"START") {
        return alone(rest, START);
    }
    if is_word(word, b"STOP") {
        return alone(rest, STOP);
    }
    if is_word(word, b"repeated") {
        return pair(rest, b"START", REPEATED_START);
    }
    if is_word(word, b"cut") {
        return pair(rest, b"byte", PARTIAL);
    }
    transfer(line)
}
