// Lines of output in words with marks.
use rig_lines::console::{PAGE, begin, put_formed, put_quoted, taken};
use rig_lines::store::line_at;
use text::{put_byte, put_bytes};

// Beside the marks of a form, what stands for `s`, unless the number before was 1, and for a word that was met, in
// quotes.
const PLURAL: u8 = b'~';

const WORD: u8 = b'$';

fn put_mark(
    page: &mut [u8; PAGE],
    at: usize,
    b: u8,
    numbers: &[u64],
    place: usize,
    word: &[u8],
) -> usize {
    match b {
        PLURAL if line_at(numbers, place.saturating_sub(1)) == 1 => at,
        PLURAL => put_byte(page, at, b's'),
        WORD => put_quoted(page, at, word),
        _ => put_formed(page, at, b, line_at(numbers, place)),
    }
}

// A part of a line, perhaps its first.
// A loop of its own: a function shared with the other programs would take two closures, and save no line here.
pub(crate) fn put(
    page: &mut [u8; PAGE],
    at: usize,
    words: &[u8],
    numbers: &[u64],
    word: &[u8],
) -> usize {
    let mut next = begin(page, at);
    let mut place: usize = 0;
    for b in words {
        next = put_mark(page, next, *b, numbers, place, word);
        place = place.saturating_add(taken(*b));
    }
    next
}

// The rest of a line, or all of it.
pub(crate) fn say(
    page: &mut [u8; PAGE],
    at: usize,
    words: &[u8],
    numbers: &[u64],
    word: &[u8],
) -> usize {
    let next = put(page, at, words, numbers, word);
    put_byte(page, next, b'\n')
}

// A part of a line in words that name no word that was met.
pub(crate) fn put_numbers(
    page: &mut [u8; PAGE],
    at: usize,
    words: &[u8],
    numbers: &[u64],
) -> usize {
    put(page, at, words, numbers, words)
}

// The rest of such a line, or all of it.
pub(crate) fn say_numbers(
    page: &mut [u8; PAGE],
    at: usize,
    words: &[u8],
    numbers: &[u64],
) -> usize {
    say(page, at, words, numbers, words)
}

// The rest of a line, in words without marks.
pub(crate) fn end(page: &mut [u8; PAGE], at: usize, words: &[u8]) -> usize {
    let next = put_bytes(page, at, words);
    put_byte(page, next, b'\n')
}

// So many bytes at the end of a line.
pub(crate) fn suffix(line: &[u8], left: usize) -> &[u8] {
    &line[line.len().saturating_sub(left)..]
}
