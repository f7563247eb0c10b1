// The numbers of a command's line. One that cannot be read counts as the largest of its type.
ghost use Rattle.std.specs.Prelude.{◌≤◌, length};

// How many lengths of parts were read, and how many counts of parts.
#[derive(Clone, Copy)]
pub struct Read {
    pub parts: usize,
    pub counts: usize,
}

fn value(word: &[u8]) -> u64 {
    text::decimal(word).unwrap_or(u64::MAX)
}

// The number that a word says, or all there is.
pub fn within(word: &[u8], all: usize) -> usize
    ensures { result ≤ all }
{
    let n = value(word) as usize;
    if n < all { n } else { all }
}

// One digit more, where b is one and there is room, and the next position.
fn push_digit(values: &mut [u8], n: usize, b: u8) -> usize
    requires { n ≤ length values.old }
    ensures { result ≤ length values.new }
{
    let Some(digit) = text::digit(b) else {
        return n;
    };
    if n < values.len() {
        values[n] = digit;
        return n + 1;
    }
    n
}

// The values of the hexadecimal digits of a text, and how many there are; other bytes are passed over.
pub fn read_digits(text: &[u8], values: &mut [u8]) -> usize
    ensures { result ≤ length values.new }
{
    let mut n = 0;
    for b in text {
        n = push_digit(values, n, *b);
    }
    n
}

fn byte(high: u8, low: u8) -> u8 {
    (high << 4) | low
}

// The bytes that the first n digits spell, put over them, and how many there are.
fn join(values: &mut [u8], n: usize) -> usize
    requires { n ≤ length values.old }
    ensures { result ≤ length values.new }
{
    for i in 0..n / 2 {
        values[i] = byte(values[2 * i], values[2 * i + 1]);
    }
    n / 2
}

// The bytes of a text in hexadecimal, and how many there are.
pub fn read_bytes(text: &[u8], out: &mut [u8]) -> usize
    ensures { result ≤ length out.new }
{
    let n = read_digits(text, out);
    join(out, n)
}

// A number of 32 bits; a larger one counts as the largest.
fn short(n: u64) -> u32 {
    if n <= 0xffff_ffff { n as u32 } else { u32::MAX }
}

// The numbers of a line, and how many there are.
pub fn read_numbers(line: &[u8], out: &mut [u32]) -> usize
    ensures { result ≤ length out.new }
{
    let mut rest = line;
    for n in 0..out.len() {
        let word = text::first_word(rest);
        if word.len() == 0 {
            return n;
        }
        out[n] = short(value(word));
        let next = text::after_word(rest);
        rest = next;
    }
    out.len()
}

// One number more, where there is room, and the next position.
fn push(out: &mut [u32], n: usize, number: u32) -> usize
    requires { n ≤ length out.old }
    ensures { (n ≤ result) × (result ≤ length out.new) }
{
    if n < out.len() {
        out[n] = number;
        return n + 1;
    }
    n
}

// The lengths of the parts of a message in hexadecimal, from position n on, and the next position.
fn push_parts(message: &[u8], parts: &mut [u32], n: usize) -> usize
    requires { n ≤ length parts.old }
    ensures { (n ≤ result) × (result ≤ length parts.new) }
{
    let mut next = n;
    for part in message.split(|b| *b == b'/') {
        next = push(parts, next, short((part.len() / 2) as u64));
    }
    next
}

// The lengths of the parts of the messages of a line, and how many parts each has.
pub fn read_messages(line: &[u8], parts: &mut [u32], counts: &mut [u32]) -> Read
    ensures { (result.parts ≤ length parts.new) × (result.counts ≤ length counts.new) }
{
    let mut rest = line;
    let mut at = 0;
    for n in 0..counts.len() {
        let message = text::first_word(rest);
        if message.len() == 0 {
            return Read {
                parts: at,
                counts: n,
            };
        }
        let to = push_parts(message, parts, at);
        counts[n] = short((to - at) as u64);
        at = to;
        let next = text::after_word(rest);
        rest = next;
    }
    Read {
        parts: at,
        counts: counts.len(),
    }
}
