// The numbers of a command's line. One that cannot be read counts as the largest of its type.
ghost use Rattle.std.specs.Prelude.{◌≤◌, ◌<◌, length, IfSome};

fn value(word: &[u8]) -> u64 {
    text::decimal(word).unwrap_or(u64::MAX)
}

pub fn number(word: &[u8]) -> u32 {
    u32::try_from(value(word)).unwrap_or(u32::MAX)
}

// The length of a buffer, a list or a trace.
pub fn size(word: &[u8]) -> usize {
    value(word) as usize
}

pub fn event(word: &[u8]) -> u16 {
    u16::try_from(value(word)).unwrap_or(u16::MAX)
}

fn level(word: &[u8]) -> u8 {
    u8::try_from(value(word)).unwrap_or(u8::MAX)
}

// Where the colon of a sample S:L stands.
fn colon(sample: &[u8]) -> Option<usize>
    ensures { IfSome result (λ place. place < length sample.now) }
{
    sample.iter().position(|b| *b == b':')
}

pub fn stamp_of(sample: &[u8]) -> u32 {
    match colon(sample) {
        Some(end) => number(&sample[..end]),
        None => u32::MAX,
    }
}

pub fn level_of(sample: &[u8]) -> u8 {
    match colon(sample) {
        Some(end) => level(&sample[end + 1..]),
        None => u8::MAX,
    }
}

// What `read` makes of each word of a line, as many as there is room for, and how many those are.
pub(crate) fn read_words<T: Copy, F: Fn(&[u8]) -> T>(line: &[u8], items: &mut [T], read: F) -> usize
    requires { F.IsAlwaysCallable read }
    ensures { result ≤ length items.new }
{
    let mut rest = line;
    for (n, item) in items.iter_mut().enumerate() {
        let word = text::first_word(rest);
        if word.len() == 0 {
            return n;
        }
        *item = read(word);
        rest = text::after_word(rest);
    }
    items.len()
}
