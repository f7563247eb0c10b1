// Numbers of a text: a digit's value, and a word read as a decimal or a hexadecimal number.
ghost use Rattle.std.specs.Prelude.{◌≡◌, ◌<◌, ◌↔◌, IsTrue, EachIndex, slice_index};
ghost use Rattle.text.specs.Numbers.{digit_in, digit_value, number_in, value_of, fitting};

// Why a word says no number that 64 bits hold.
#[derive(Clone, Copy)]
pub enum NotNumber {
    // A number of 2^64 or more.
    TooLarge,
    // No number: empty, or a byte that is no digit of the base.
    Bad,
}

// The value of a hexadecimal digit of either case.
pub fn digit(b: u8) -> Option<u8>
    ensures { result ≡ digit_in b }
{
    match b {
        b'0'..=b'9' => Some(b - b'0'),
        b'A'..=b'F' => Some(b - b'A' + 10),
        b'a'..=b'f' => Some(b - b'a' + 10),
        _ => None,
    }
}

pub fn decimal(word: &[u8]) -> Result<u64, NotNumber>
    ensures { result ≡ number_in 10 word.now }
{
    number_in(word, 10)
}

pub fn hex(word: &[u8]) -> Result<u64, NotNumber>
    ensures { result ≡ number_in 16 word.now }
{
    number_in(word, 16)
}

fn number_in(word: &[u8], base: u64) -> Result<u64, NotNumber>
    requires { 0 < base }
    ensures { result ≡ number_in base word.now }
{
    if word.len() == 0 {
        return Err(NotNumber::Bad);
    }
    if !all_digits(word, base) {
        return Err(NotNumber::Bad);
    }
    value(word, base)
}

// A digit's value, and a number that no base has as a digit for any other byte: `<` then tests it in every base.
const NO_DIGIT: u64 = 16;

fn digit_wide(b: u8) -> u64
    ensures { result ≡ digit_value b }
{
    match digit(b) {
        Some(d) => d as u64,
        None => NO_DIGIT,
    }
}

fn all_digits(word: &[u8], base: u64) -> bool
    ensures { IsTrue result ↔ EachIndex word.now (λ k. digit_value (slice_index word.now k) < base) }
{
    word.iter().all(|b| digit_wide(*b) < base)
}

// The number that the word's digits spell.
fn value(word: &[u8], base: u64) -> Result<u64, NotNumber>
    requires { 0 < base }
    ensures { result ≡ fitting (value_of base word.now) }
{
    let mut v: u64 = 0;
    for b in word {
        let d = digit_wide(*b);
        if v > (u64::MAX - d) / base {
            return Err(NotNumber::TooLarge);
        }
        v = v * base + d;
    }
    Ok(v)
}
