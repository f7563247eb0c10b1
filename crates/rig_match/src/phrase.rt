// Words with marks, which stand for numbers, names, events, and lists of boards or bytes.
use crate::book::Lists;
use crate::shown;
use rig_lines::console::{PAGE, begin, put_formed, taken};
use rig_lines::store::line_at;
use text::{put_byte, put_bytes};

// What stands for the next number, beside the marks of a form: for the name of the load or board in that row, for an
// event, for its acknowledge; and what takes it and puts nothing.
const NAME: u8 = b'$';

const EVENT: u8 = b'@';

const ACKNOWLEDGE: u8 = b'!';

const NOTHING: u8 = b'_';

// What stands for the next two: for the bytes of the frame, or the boards, from one up to the other.
const FRAME: u8 = b'=';

pub(crate) const WINNERS: u8 = b'+';

pub(crate) const UNDECIDED: u8 = b'?';

pub(crate) const WAITING: u8 = b'*';

// `s`, unless the number before was 1; a comma, unless a blank stands before it.
const PLURAL: u8 = b'~';

const COMMA: u8 = b'&';

// What is between them stands only where the next number is not 0.
const OPEN: u8 = b'[';

const CLOSE: u8 = b']';

// The place after the numbers that a byte of the words takes.
fn after(b: u8, place: usize) -> usize {
    match b {
        NAME | EVENT | ACKNOWLEDGE | NOTHING => place.saturating_add(1),
        FRAME | WINNERS | UNDECIDED | WAITING => place.saturating_add(2),
        _ => place.saturating_add(taken(b)),
    }
}

// Whether the words stand from a byte on.
fn stands(before: bool, b: u8, number: u64) -> bool {
    match b {
        OPEN => number > 0,
        CLOSE => true,
        _ => before,
    }
}

// What stands for one number, and what takes none.
fn put_number(page: &mut [u8; PAGE], at: usize, b: u8, number: u64, last: u64) -> usize {
    match b {
        EVENT => shown::put_event(page, at, number),
        ACKNOWLEDGE => put_bytes(page, at, shown::acknowledge(number)),
        PLURAL if last == 1 => at,
        PLURAL => put_byte(page, at, b's'),
        COMMA => shown::put_comma(page, at),
        NOTHING | OPEN | CLOSE => at,
        _ => put_formed(page, at, b, number),
    }
}

fn put_mark(
    page: &mut [u8; PAGE],
    at: usize,
    book: &[u32],
    lists: Lists,
    b: u8,
    numbers: &[u64],
    place: usize,
) -> usize {
    let number = line_at(numbers, place);
    let row = number as usize;
    let end = line_at(numbers, place.saturating_add(1)) as usize;
    match b {
        NAME => shown::put_name(page, at, book, lists.names, row),
        FRAME => shown::put_frame(page, at, lists.seen, row, end),
        WINNERS | UNDECIDED | WAITING => { shown::put_boards(page, at, book, lists, b, row, end) }
        _ => put_number(
            page,
            at,
            b,
            number,
            line_at(numbers, place.saturating_sub(1)),
        ),
    }
}

// Words, with what the marks in them stand for.
// A loop of its own: a function shared with the other programs would take three closures, and save no line.
pub(crate) fn put(
    page: &mut [u8; PAGE],
    at: usize,
    book: &[u32],
    lists: Lists,
    words: &[u8],
    numbers: &[u64],
) -> usize {
    let mut end = begin(page, at);
    let mut place: usize = 0;
    let mut standing = true;
    for b in words {
        standing = stands(standing, *b, line_at(numbers, place));
        if standing {
            end = put_mark(page, end, book, lists, *b, numbers, place);
        }
        place = after(*b, place);
    }
    end
}
