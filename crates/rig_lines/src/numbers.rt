// Numbers that a text says, and counts.
ghost use Rattle.std.specs.Prelude.{◌≡◌};
ghost use Rattle.rig_lines.specs.Numbers.{value_in, says_number, byte_in, one_more};

use text::NotNumber;

// The number that a word says, and one above every limit where it says none.
pub fn value(number: Result<u64, NotNumber>) -> u64
    ensures { result ≡ value_in number }
{
    number.unwrap_or(u64::MAX)
}

// Also one that is too large.
pub fn is_number(number: Result<u64, NotNumber>) -> bool
    ensures { result ≡ says_number number }
{
    !matches!(number, Err(NotNumber::Bad))
}

// A byte of one or two hexadecimal digits.
pub fn hex_byte(word: &[u8]) -> Result<u64, NotNumber>
    ensures { result ≡ byte_in word.now }
{
    if word.len() > 2 {
        return Err(NotNumber::Bad);
    }
    text::hex(word)
}

// One more, of a count that no input brings to its limit.
pub fn more(count: u64) -> u64
    ensures { result ≡ one_more count }
{
    count.saturating_add(1)
}
