// The words of a file of loads: bytes, acknowledges, N/M and names.
ghost use Rattle.std.specs.Prelude.{◌≡◌, position};
ghost use Rattle.load_text.specs.Words.{small_in, byte_in, short_byte_in, acknowledge_in, slash, parts_from, parts_in};
ghost use Rattle.load_text.specs.Words.{letter, one_or_two_digits, board_name, load_name};

use rig_lines::numbers::{is_number, value};
use text::NotNumber;

// The longest name of a board, and of a load.
pub const BOARD_NAME: usize = 16;

pub const LOAD_NAME: usize = 32;

// A number up to 255.
fn small(number: Result<u64, NotNumber>) -> Option<u8>
    ensures { result ≡ small_in number }
{
    u8::try_from(value(number)).ok()
}

// A byte of a board: two hexadecimal digits.
pub fn byte_in(word: &[u8]) -> Option<u8>
    ensures { result ≡ byte_in word.now }
{
    if word.len() != 2 {
        return None;
    }
    small(text::hex(word))
}

// The same in the old form: one or two.
pub fn short_byte_in(word: &[u8]) -> Option<u8>
    ensures { result ≡ short_byte_in word.now }
{
    if word.len() > 2 {
        return None;
    }
    small(text::hex(word))
}

// An acknowledge: a decimal number, which the library is to judge.
pub fn acknowledge_in(word: &[u8]) -> Option<u8>
    ensures { result ≡ acknowledge_in word.now }
{
    small(text::decimal(word))
}

// Where the first `/` stands.
fn slash_at(word: &[u8]) -> Option<usize>
    ensures { result ≡ position slash word.now }
{
    word.iter().position(|b| *b == b'/')
}

fn parts_from(one: Result<u64, NotNumber>, other: Result<u64, NotNumber>) -> Option<(u64, u64)>
    ensures { result ≡ parts_from one other }
{
    if is_number(one) & is_number(other) {
        return Some((value(one), value(other)));
    }
    None
}

// N/M: two decimal numbers with `/` between.
pub fn parts_in(word: &[u8]) -> Option<(u64, u64)>
    ensures { result ≡ parts_in word.now }
{
    let end = slash_at(word)?;
    let next = end + 1;
    parts_from(text::decimal(&word[..end]), text::decimal(&word[next..]))
}

fn is_letter(b: u8) -> bool
    ensures { result ≡ letter b }
{
    ((b'A' <= b) & (b <= b'Z')) | ((b'a' <= b) & (b <= b'z'))
}

// One or two hexadecimal digits.
fn is_digits(word: &[u8]) -> bool
    ensures { result ≡ one_or_two_digits word.now }
{
    (word.len() <= 2) & is_number(text::hex(word))
}

// A board's name: 1 to 16 bytes, the first a letter, and no byte.
pub fn is_board_name(word: &[u8]) -> bool
    ensures { result ≡ board_name word.now }
{
    if word.len() == 0 {
        return false;
    }
    (word.len() <= BOARD_NAME) & is_letter(word[0]) & !is_digits(word)
}

// A load's name: 1 to 32 bytes.
pub fn is_load_name(word: &[u8]) -> bool
    ensures { result ≡ load_name word.now }
{
    (word.len() != 0) & (word.len() <= LOAD_NAME)
}
