// The definitions: what each word of them makes of the reader.
ghost use Rattle.std.specs.Prelude.{◌≡◌};
ghost use Rattle.dump_reader.specs.Definitions as rule;

use crate::reader::{Part, Reader};
use crate::words::{Run, Word, bytes_of, is_command, is_same, run_length};
use text::{NotNumber, decimal};

// `$end`, and nothing else.
pub(crate) fn close(word: &[u8], next: Part) -> Part
    ensures { result ≡ rule.close word.now next }
{
    if is_same(word, b"$end") {
        return next;
    }
    Part::Refused(27)
}

// Any word up to `$end`.
pub(crate) fn skip(word: &[u8], here: Part, next: Part) -> Part
    ensures { result ≡ rule.skip word.now here next }
{
    if is_same(word, b"$end") {
        return next;
    }
    here
}

// One word that is no command.
pub(crate) fn name(word: &[u8], next: Part) -> Part
    ensures { result ≡ rule.name word.now next }
{
    if is_command(word) {
        return Part::Refused(27);
    }
    next
}

fn is_note(word: &[u8]) -> bool
    ensures { result ≡ rule.note word.now }
{
    is_same(word, b"$date") | is_same(word, b"$version") | is_same(word, b"$comment")
}

// A third wire is one too many.
fn wire(wires: u8) -> Part
    ensures { result ≡ rule.wire wires }
{
    if wires < 2 {
        Part::WireType
    } else {
        Part::Refused(24)
    }
}

// Two wires are needed.
fn opening(wires: u8) -> Part
    ensures { result ≡ rule.opening wires }
{
    if wires >= 2 {
        Part::Opening
    } else {
        Part::Refused(24)
    }
}

// A command of the definitions.
pub(crate) fn command(word: &[u8], wires: u8) -> Part
    ensures { result ≡ rule.command word.now wires }
{
    if is_note(word) {
        return Part::Note;
    }
    if is_same(word, b"$timescale") {
        return Part::Number;
    }
    if is_same(word, b"$scope") {
        return Part::ScopeType;
    }
    if is_same(word, b"$upscope") {
        return Part::Close;
    }
    if is_same(word, b"$var") {
        return wire(wires);
    }
    if is_same(word, b"$enddefinitions") {
        return opening(wires);
    }
    Part::Refused(27)
}

fn is_scope(word: &[u8]) -> bool
    ensures { result ≡ rule.scope word.now }
{
    is_same(word, b"begin")
        | is_same(word, b"fork")
        | is_same(word, b"function")
        | is_same(word, b"module")
        | is_same(word, b"task")
}

pub(crate) fn scope_type(word: &[u8]) -> Part
    ensures { result ≡ rule.scope_type word.now }
{
    if is_scope(word) {
        return Part::ScopeName;
    }
    Part::Refused(27)
}

pub(crate) fn wire_type(word: &[u8]) -> Part
    ensures { result ≡ rule.wire_type word.now }
{
    if is_same(word, b"wire") {
        return Part::WireSize;
    }
    Part::Refused(24)
}

// The number 1.
pub(crate) fn wire_size(word: &[u8]) -> Part
    ensures { result ≡ rule.wire_size word.now }
{
    sized(decimal(word))
}

fn sized(size: Result<u64, NotNumber>) -> Part
    ensures { result ≡ rule.sized size }
{
    match size {
        Ok(n) => one(n),
        Err(_) => Part::Refused(24),
    }
}

fn one(n: u64) -> Part
    ensures { result ≡ rule.one n }
{
    if n == 1 {
        Part::Identifier
    } else {
        Part::Refused(24)
    }
}

// Another word of a wire's name, or `$end`.
pub(crate) fn names(word: &[u8]) -> Part
    ensures { result ≡ rule.names word.now }
{
    if is_same(word, b"$end") {
        return Part::Definitions;
    }
    name(word, Part::Names)
}

fn is_identifier(word: &[u8]) -> bool
    ensures { result ≡ rule.identifier word.now }
{
    !is_same(word, b"$end") & (run_length(word, Run::Graphic) == word.len())
}

// The identifier of the first wire, or of the second one, which is another.
pub(crate) fn declare(text: &[u8], mut reader: Reader, word: Word) -> Reader
    ensures { result ≡ rule.declare text.now reader word }
{
    let bytes = bytes_of(text, word);
    if !is_identifier(bytes) {
        return reader.refused(27);
    }
    if reader.wires == 0 {
        reader.wires = 1;
        reader.scl = word;
        return reader.moved(Part::Name);
    }
    if is_same(bytes, bytes_of(text, reader.scl)) {
        return reader.refused(24);
    }
    reader.wires = 2;
    reader.sda = word;
    reader.moved(Part::Name)
}
