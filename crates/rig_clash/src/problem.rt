// What is wrong with a line: words with marks, and what they stand for. It is said once the line is followed.
use crate::forms::Form;
use crate::kept::part;
use crate::phrase::put_numbers;
use rig_lines::console::{PAGE, put_count, put_quoted};
use text::{put_byte, put_bytes, put_decimal};

// Room for as much of a word that was met as quotes show, and one byte more.
const WORD: usize = 33;

// What stands in the words for a word that was met, in quotes; for the word as it is; for a number; for the number of
// loads; and for the line of the last of them.
const QUOTED: u8 = b'$';

const PLAIN: u8 = b'@';

const NUMBER: u8 = b'#';

const LOADS: u8 = b'&';

const LAST: u8 = b'^';

// What is not read for what is wrong: the line, anything of the file, or the rest of it.
#[derive(Clone, Copy, PartialEq, Eq)]
pub(crate) enum Reach {
    Line,
    File,
    Rest,
}

#[derive(Clone, Copy)]
pub(crate) struct Problem {
    // the line that is wrong, where it is one in particular
    pub(crate) line: Option<u64>,
    // the words; the word that was met
    form: Form,
    word: [u8; WORD],
    size: usize,
    number: u64,
    // how many loads the file has up to here, and the line of the last
    loads: u64,
    load_line: u64,
    pub(crate) reach: Reach,
}

pub(crate) fn of(
    line: Option<u64>,
    form: Form,
    word: &[u8],
    number: u64,
    loads: u64,
    load_line: u64,
    reach: Reach,
) -> Problem {
    let mut met = [0u8; WORD];
    let size = put_bytes(&mut met, 0, word);
    Problem {
        line,
        form,
        word: met,
        size,
        number,
        loads,
        load_line,
        reach,
    }
}

impl Problem {
    pub(crate) fn put(self, page: &mut [u8; PAGE], at: usize) -> usize {
        put_words(
            page,
            at,
            self.form.words(),
            part(&self.word, 0, self.size),
            self.number,
            self.loads,
            self.load_line,
        )
    }
}

fn put_last(page: &mut [u8; PAGE], at: usize, loads: u64, line: u64) -> usize {
    if loads == 0 {
        return at;
    }
    put_numbers(page, at, b", the last from line #", &[line])
}

fn put_mark(
    page: &mut [u8; PAGE],
    at: usize,
    b: u8,
    word: &[u8],
    number: u64,
    loads: u64,
    last: u64,
) -> usize {
    match b {
        QUOTED => put_quoted(page, at, word),
        PLAIN => put_bytes(page, at, word),
        NUMBER => put_decimal(page, at, number),
        LOADS => put_count(page, at, loads, b"load"),
        LAST => put_last(page, at, loads, last),
        _ => put_byte(page, at, b),
    }
}

// Words with their marks.
pub(crate) fn put_words(
    page: &mut [u8; PAGE],
    at: usize,
    form: &[u8],
    word: &[u8],
    number: u64,
    loads: u64,
    last: u64,
) -> usize {
    let mut next = at;
    for b in form {
        next = put_mark(page, next, *b, word, number, loads, last);
    }
    next
}
