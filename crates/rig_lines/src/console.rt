// Text put on one lent page, which is written to standard output when it is full: few writes, and no copies.
// Each function puts its text at a position and answers the next one, as those of the crate text do.
ghost use Rattle.std.specs.Prelude.{◌≤◌, ◌≡◌, length};
ghost use Rattle.text.specs.Output.{Put};
ghost use Rattle.rig_lines.specs.Bytes.{control};
ghost use Rattle.rig_lines.specs.Console.{beginning, spaces, padded_text, count_text, shown as shown_byte};
ghost use Rattle.rig_lines.specs.Console.{shown_text, quoted_text, form_byte, marks, form_text};
ghost use Rattle.rig_lines.specs.Lists.{line_at};

use crate::lists::line_of;
use crate::{parts, store};
use text::{put_byte, put_bytes, put_decimal, put_hex_byte};

const STDOUT: i32 = 1;

const STDERR: i32 = 2;

pub const PAGE: usize = 16384;

// Room for the longest line: a file's name and what went wrong with it.
pub const LINE: usize = 4608;

// What stands for a number in the words of a form.
const DECIMAL: u8 = b'#';

const HEX: u8 = b'%';

// How much of a word an error shows.
const QUOTED: usize = 32;

// Writes what stands on the page before a position to standard output; the next line begins at the start.
pub fn flush(page: &[u8], at: usize) -> usize
    ensures { result ≡ 0 }
{
    let end = parts::lent(at, page);
    if !io::write_all(STDOUT, &page[..end]) {
        io::write_all(STDERR, b"standard output: cannot be written\n");
    }
    0
}

// Where the next line begins: there is room for it.
pub fn begin(page: &[u8], at: usize) -> usize
    ensures { result ≡ beginning (length page.now) at }
{
    if page.len().saturating_sub(at) < LINE {
        return flush(page, at);
    }
    at
}

// Writes a part of the page to standard error, as a note aside; the next line begins where it began.
pub fn note(page: &[u8], from: usize, end: usize) -> usize
    ensures { result ≡ from }
{
    let last = parts::lent(end, page);
    if from <= last {
        io::write_all(STDERR, &page[from..last]);
    }
    from
}

pub fn put_spaces(page: &mut [u8], at: usize, n: usize) -> usize
    ensures { Put page.old at (spaces n) page.new result }
{
    let mut next = at.min(page.len());
    for _ in 0..n {
        next = put_byte(page, next, b' ');
    }
    next
}

// A text, then spaces up to a width.
pub fn put_padded(page: &mut [u8], at: usize, text: &[u8], width: usize) -> usize
    ensures { Put page.old at (padded_text width text.now) page.new result }
{
    let end = put_bytes(page, at, text);
    put_spaces(page, end, width.saturating_sub(text.len()))
}

// A count of a thing: `1 load`, `2 loads`.
pub fn put_count(page: &mut [u8], at: usize, n: u64, thing: &[u8]) -> usize
    ensures { Put page.old at (count_text n thing.now) page.new result }
{
    let number = put_decimal(page, at, n);
    let space = put_byte(page, number, b' ');
    let one = put_bytes(page, space, thing);
    if n == 1 {
        return one;
    }
    put_byte(page, one, b's')
}

pub(crate) fn is_control(b: u8) -> bool
    ensures { result ≡ control b }
{
    (b < 0x20) | (b == 0x7f)
}

fn shown(b: u8) -> u8
    ensures { result ≡ shown_byte b }
{
    if is_control(b) { b'?' } else { b }
}

// A word of the input or of the command line; control bytes as `?`.
pub fn put_shown(page: &mut [u8], at: usize, word: &[u8]) -> usize
    ensures { Put page.old at (shown_text word.now) page.new result }
{
    let mut next = at.min(page.len());
    for b in word {
        next = put_byte(page, next, shown(*b));
    }
    next
}

// A word that was met, in single quotes; of a long one the front.
pub fn put_quoted(page: &mut [u8], at: usize, word: &[u8]) -> usize
    ensures { Put page.old at (quoted_text word.now) page.new result }
{
    let quote = put_byte(page, at, b'\'');
    if word.len() > QUOTED {
        let front = put_shown(page, quote, &word[..QUOTED]);
        return put_bytes(page, front, b"..'");
    }
    let whole = put_shown(page, quote, word);
    put_byte(page, whole, b'\'')
}

// How many numbers a byte of a form takes.
pub fn taken(b: u8) -> usize
    ensures value { result ≡ marks b }
    ensures upper_bound { result ≤ 1 }
{
    if (b == DECIMAL) | (b == HEX) { 1 } else { 0 }
}

// A byte of a form: a mark stands for a number.
pub fn put_formed(page: &mut [u8], at: usize, b: u8, n: u64) -> usize
    ensures { Put page.old at (form_byte b n) page.new result }
{
    if b == DECIMAL {
        return put_decimal(page, at, n);
    }
    if b == HEX {
        return put_hex_byte(page, at, (n % 256) as u8);
    }
    put_byte(page, at, b)
}

// Words in which each mark stands for the next number: `#` in decimal, `%` as two hexadecimal digits.
// The loops of the programs stay beside this one: its contract names the text of each byte, which a closure would hide.
pub fn put_form(page: &mut [u8], at: usize, words: &[u8], numbers: &[u64]) -> usize
    ensures { Put page.old at (form_text words.now numbers.now)
        page.new result }
{
    let mut next = at.min(page.len());
    let mut number: usize = 0;
    for b in words {
        next = put_formed(page, next, *b, store::line_at(numbers, number));
        number += taken(*b);
    }
    next
}

// The line of a text at a place, counted from 0.
pub fn put_line(page: &mut [u8], at: usize, text: &[u8], place: usize) -> usize
    ensures { Put page.old at (line_at place text.now) page.new result }
{
    put_bytes(page, at, line_of(text, place))
}
