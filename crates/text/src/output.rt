// Text put into a lent buffer at a position. Each function answers the position after the text;
// what would fall past the buffer's end is dropped, and the position is then the buffer's length.
ghost use Rattle.std.specs.Prelude.{◌≡◌, [], ◌∷◌, ◌<◌};
ghost use Rattle.text.specs.Output.{Put, digit_byte, decimal_text, hex_text};

pub fn put_byte(out: &mut [u8], at: usize, b: u8) -> usize
    ensures { Put out.old at (b ∷ []) out.new result }
{
    if at < out.len() {
        out[at] = b;
        return at + 1;
    }
    out.len()
}

pub fn put_bytes(out: &mut [u8], at: usize, text: &[u8]) -> usize
    ensures { Put out.old at text.now out.new result }
{
    let mut next = at.min(out.len());
    for b in text {
        next = put_byte(out, next, *b);
    }
    next
}

// The byte that stands for a digit, upper case.
fn digit_byte(d: u8) -> u8
    requires { d < 16 }
    ensures { result ≡ digit_byte d }
{
    if d < 10 { b'0' + d } else { b'A' + d - 10 }
}

// n in decimal, without leading zeros.
pub fn put_decimal(out: &mut [u8], at: usize, n: u64) -> usize
    ensures { Put out.old at (decimal_text n) out.new result }
{
    let last = digit_byte((n % 10) as u8);
    if n < 10 {
        return put_byte(out, at, last);
    }
    let next = put_decimal(out, at, n / 10);
    put_byte(out, next, last)
}

// b as two hexadecimal digits.
pub fn put_hex_byte(out: &mut [u8], at: usize, b: u8) -> usize
    ensures { Put out.old at (hex_text 2 b) out.new result }
{
    let next = put_byte(out, at, digit_byte(b / 16));
    put_byte(out, next, digit_byte(b % 16))
}

// w as four hexadecimal digits.
pub fn put_hex_word(out: &mut [u8], at: usize, w: u16) -> usize
    ensures { Put out.old at (hex_text 4 w) out.new result }
{
    let next = put_hex_byte(out, at, (w / 256) as u8);
    put_hex_byte(out, next, (w % 256) as u8)
}
