// Words with marks that stand for numbers, names, messages and files.
use crate::columns::pad;
use crate::kept;
use crate::order::byte_at;
use rig_lines::console::{PAGE, begin, note, put_form, put_formed, put_shown, taken};
use rig_lines::files::put_reason;
use rig_lines::store::line_at;
use text::{put_byte, put_bytes, put_hex_byte};

// Beside the marks of a form, what stands for `s`, unless the number before was 1.
const PLURAL: u8 = b'~';

// What stands for the name of the load, and for its title after a space, where it has one.
const LOAD: u8 = b'*';

const TITLE: u8 = b'[';

// What stands for the board whose number is next: for its name, or else `board N`; for its number, and its name where
// it has one; and for its message, from one place to another, the two numbers after it.
const NAME: u8 = b'$';

const BOARD: u8 = b'@';

const MESSAGE: u8 = b'&';

// What stands for the file that is being read, by its name or, where its argument is 0, as standard input, and for why
// the system refuses it.
const FILE: u8 = b'+';

const REASON: u8 = b'`';

// What stands for spaces up to the column that is next, and for nothing, where the next number is passed over.
const COLUMN: u8 = b'_';

const PASSED: u8 = b'?';

// The place after a byte of the words.
fn after(b: u8, place: usize) -> usize {
    match b {
        NAME | BOARD | FILE | REASON | COLUMN | PASSED => place.saturating_add(1),
        MESSAGE => place.saturating_add(3),
        _ => place.saturating_add(taken(b)),
    }
}

fn put_title(page: &mut [u8; PAGE], at: usize, title: &[u8]) -> usize {
    let space = put_bytes(page, at, if title.len() == 0 { b"" } else { b" " });
    put_bytes(page, space, title)
}

// A board by its name, or by its number and its name.
fn put_board(page: &mut [u8; PAGE], at: usize, name: &[u8], number: u64, both: bool) -> usize {
    let words: &[u8] = match (both, name.len() > 0) {
        (false, false) => b"board #",
        (false, true) => b"",
        (true, false) => b"#",
        (true, true) => b"# ",
    };
    let front = put_form(page, at, words, &[number]);
    put_bytes(page, front, name)
}

// What stands before a byte of a message: nothing, what stands between two bytes, or ` / ` where a part begins.
pub(crate) fn gap_of(i: usize, part: u8, between: &'static [u8]) -> &'static [u8] {
    if i == 0 {
        return b"";
    }
    if part > 0 { b" / " } else { between }
}

// A file by its name, or standard input.
fn put_file(page: &mut [u8; PAGE], at: usize, kept: &[u8], argument: u64) -> usize {
    if argument == 0 {
        return put_bytes(page, at, b"standard input");
    }
    put_shown(page, at, kept::file(kept))
}

// The message of a board, from one place to another.
fn put_message(
    page: &mut [u8; PAGE],
    at: usize,
    kept: &[u8],
    board: usize,
    start: usize,
    end: usize,
) -> usize {
    let message = kept::row(
        kept,
        kept::row_of(kept::MESSAGES_AT, board),
        start,
        end.saturating_sub(start),
    );
    let parts = kept::row(
        kept,
        kept::row_of(kept::PARTS_AT, board),
        start,
        end.saturating_sub(start),
    );
    let mut next = at;
    for (i, byte) in message.iter().enumerate() {
        let gap = put_bytes(page, next, gap_of(i, byte_at(parts, i), b" "));
        next = put_hex_byte(page, gap, *byte);
    }
    next
}

// What stands for `s`, for what is kept of the load, and for a board.
fn put_kept(
    page: &mut [u8; PAGE],
    at: usize,
    kept: &[u8],
    b: u8,
    numbers: &[u64],
    place: usize,
) -> usize {
    let number = line_at(numbers, place);
    let one = line_at(numbers, place.saturating_sub(1)) == 1;
    let start = line_at(numbers, place.saturating_add(1)) as usize;
    let end = line_at(numbers, place.saturating_add(2)) as usize;
    match b {
        PLURAL => put_bytes(page, at, if one { b"" } else { b"s" }),
        LOAD => put_bytes(page, at, kept::name(kept)),
        TITLE => put_title(page, at, kept::title(kept)),
        MESSAGE => put_message(page, at, kept, number as usize, start, end),
        _ => {
            let name = kept::board_name(kept, number as usize);
            put_board(page, at, name, number, b == BOARD)
        }
    }
}

fn put_mark(
    page: &mut [u8; PAGE],
    from: usize,
    at: usize,
    kept: &[u8],
    b: u8,
    numbers: &[u64],
    place: usize,
) -> usize {
    let number = line_at(numbers, place);
    match b {
        FILE => put_file(page, at, kept, number),
        REASON => put_reason(page, at, number),
        COLUMN => pad(page, from, at, number as usize),
        PASSED => at,
        PLURAL | LOAD | TITLE | NAME | BOARD | MESSAGE => put_kept(
            page, at, kept, b, numbers, place,
        ),
        _ => put_formed(page, at, b, number),
    }
}

// Words with marks and their numbers, in a line that begins at a position.
// A loop of its own: a function shared with the other programs would take two closures, and save no line here.
pub(crate) fn put_in(
    page: &mut [u8; PAGE],
    from: usize,
    at: usize,
    kept: &[u8],
    words: &[u8],
    numbers: &[u64],
) -> usize {
    let mut next = at;
    let mut place: usize = 0;
    for b in words {
        next = put_mark(page, from, next, kept, *b, numbers, place);
        place = after(*b, place);
    }
    next
}

pub(crate) fn put(
    page: &mut [u8; PAGE],
    at: usize,
    kept: &[u8],
    words: &[u8],
    numbers: &[u64],
) -> usize {
    put_in(page, at, at, kept, words, numbers)
}

// The front of a line.
pub(crate) fn put_front(
    page: &mut [u8; PAGE],
    at: usize,
    kept: &[u8],
    words: &[u8],
    numbers: &[u64],
) -> usize {
    let start = begin(page, at);
    put(page, start, kept, words, numbers)
}

// A whole line, where it is wanted.
pub(crate) fn put_line(
    page: &mut [u8; PAGE],
    at: usize,
    kept: &[u8],
    wanted: bool,
    words: &[u8],
    numbers: &[u64],
) -> usize {
    if !wanted {
        return at;
    }
    let end = put_front(page, at, kept, words, numbers);
    put_byte(page, end, b'\n')
}

// A note aside, on standard error; answers where the page goes on.
pub(crate) fn put_note(
    page: &mut [u8; PAGE],
    at: usize,
    kept: &[u8],
    words: &[u8],
    numbers: &[u64],
) -> usize {
    let start = begin(page, at);
    let end = put(page, start, kept, words, numbers);
    note(page, start, end)
}

// Words with numbers and no name; nothing that is kept is read.
pub(crate) fn put_numbers(
    page: &mut [u8; PAGE],
    at: usize,
    words: &[u8],
    numbers: &[u64],
) -> usize {
    put(page, at, words, words, numbers)
}

// The same at the front of a line.
pub(crate) fn begin_numbers(
    page: &mut [u8; PAGE],
    at: usize,
    words: &[u8],
    numbers: &[u64],
) -> usize {
    put_front(page, at, words, words, numbers)
}

// The same as a whole line, where it is wanted.
pub(crate) fn line_numbers(
    page: &mut [u8; PAGE],
    at: usize,
    wanted: bool,
    words: &[u8],
    numbers: &[u64],
) -> usize {
    put_line(page, at, words, wanted, words, numbers)
}
