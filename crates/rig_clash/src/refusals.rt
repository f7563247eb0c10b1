// Refusals of a load, in words: what each is about.
use crate::kept::{ACKS, ACKS_AT};
use crate::load::Load;
use crate::order::byte_at;
use crate::phrase::{put, put_front};
use crate::{kept, order};
use arbitration_rules::MAX_LENGTH;
use load_text::board_of;
use rig_lines::console::PAGE;
use text::put_byte;

// Where a refusal is said: in a block, in the table, or in the block of a night.
#[derive(Clone, Copy)]
pub(crate) enum Stage {
    Block,
    Table,
    Night,
}

// Words with marks, and their numbers.
#[derive(Clone, Copy)]
struct Words {
    form: &'static [u8],
    numbers: [u64; 8],
}

fn by(form: &'static [u8], a: u64, b: u64, c: u64) -> Words {
    Words {
        form,
        numbers: [a, b, c, 0, 0, 0, 0, 0],
    }
}

// 12: there is no master, or there are too many.
fn masters(load: Load, brief: bool) -> Words {
    if load.named {
        return by(b"every board is silent", 0, 0, 0);
    }
    if load.rows == 0 {
        return by(b"no board", 0, 0, 0);
    }
    if brief {
        return by(b"# boards", load.rows, 0, 0);
    }
    by(
        b"# boards, and at most 16 may start together",
        load.rows,
        0,
        0,
    )
}

fn length_words(length: u64, brief: bool) -> &'static [u8] {
    match (length == 0, brief) {
        (true, false) => b"$ (line #) has no bytes",
        (true, true) => b"$ has no bytes",
        (false, false) => b"$ (line #) has # bytes, and at most 64 may be sent",
        (false, true) => b"$? has # bytes",
    }
}

fn read_words(place: usize, brief: bool) -> &'static [u8] {
    match (place == 0, brief) {
        (true, false) => b"$ (line #) begins with %, which is odd, a read",
        (true, true) => b"$? begins with %",
        (false, false) => b"$ (line #) restarts with %, which is odd, a read",
        (false, true) => b"$? restarts with %",
    }
}

// 13: a message of no bytes or too many. 14: one that begins, or restarts, with a read.
fn of_message(kept: &[u8], load: Load, number: u8, board: usize, brief: bool) -> Words {
    let message = order::message(kept, load, board);
    let line = load.line_of(board).unwrap_or(0);
    if number == 14 {
        let place = order::first_read(message, order::parts(kept, load, board));
        let byte = byte_at(message, place);
        return by(read_words(place, brief), board as u64, line, byte as u64);
    }
    let length = load.length_of(board) as u64;
    by(length_words(length, brief), board as u64, line, length)
}

fn value_words(brief: bool) -> &'static [u8] {
    if brief {
        return b"acknowledge #? is #";
    }
    b"acknowledge # (line #) is #, neither 0 nor 1"
}

fn count_words(brief: bool) -> &'static [u8] {
    if brief {
        return b"# acknowledge~? for #";
    }
    b"# acknowledge~ (line #) for the # byte~ of $ (line #), the longest"
}

// 15: acknowledges that are not as many as the longest message has bytes, or one above 1.
fn acknowledges(kept: &[u8], load: Load, brief: bool) -> Words {
    let acks = kept::part(kept, ACKS_AT, ACKS);
    if load.acks == load.longest() as usize {
        let place = order::first_above(acks, 1);
        let value = byte_at(acks, place) as u64;
        return by(
            value_words(brief),
            place as u64,
            load.ack_line.unwrap_or(0),
            value,
        );
    }
    let board = order::longest(load).unwrap_or(load.boards);
    let length = load.length_of(board) as u64;
    let line = load.line_of(board).unwrap_or(0);
    Words {
        form: count_words(brief),
        numbers: [
            load.acks as u64,
            load.ack_line.unwrap_or(0),
            length,
            board as u64,
            line,
            0,
            0,
            0,
        ],
    }
}

// 16 in a row: the one that ends begins the other.
fn pair(board: usize, other: usize, ends: bool, restarts: bool) -> Words {
    if ends {
        return by(b"$ begins $", other as u64, board as u64, 0);
    }
    if restarts {
        return by(b"$ restarts in $", board as u64, other as u64, 0);
    }
    by(b"$ begins $", board as u64, other as u64, 0)
}

// The same in a block.
fn parting_words(ends: bool, restarts: bool) -> &'static [u8] {
    match (restarts, ends) {
        (false, false) => b"$ (line #) ends with &, acknowledged, where $ (line #) goes on with %",
        (false, true) => b"$ (line #) ends with &, acknowledged, where $ (line #) ends",
        (true, false) => {
            b"$ (line #) restarts after &, acknowledged, where $ (line #) goes on with %"
        }
        (true, true) => b"$ (line #) restarts after &, acknowledged, where $ (line #) ends",
    }
}

// 16: a message ends or restarts, acknowledged up to there, where another does not.
fn parting(kept: &[u8], load: Load, board: usize, other: usize, brief: bool) -> Words {
    let place = order::front(kept, load, board, other);
    let message = order::message(kept, load, other);
    let restarts = order::restarts(kept, load, board, place);
    let ends = place >= message.len();
    if brief {
        return pair(board, other, ends, restarts);
    }
    let line = load.line_of(board).unwrap_or(0);
    let whom = load.line_of(other).unwrap_or(0);
    let byte = byte_at(message, place) as u64;
    let from = board as u64;
    Words {
        form: parting_words(ends, restarts),
        numbers: [from, line, from, 0, place as u64, other as u64, whom, byte],
    }
}

// 16: the least message, and another that does not do the same after bytes that are acknowledged; in a night, where
// all are, the first that ends or restarts where another does not.
fn undecided(kept: &[u8], load: Load, stage: Stage) -> Words {
    if let Stage::Night = stage {
        let first = order::first_ending(kept, load).unwrap_or(load.boards);
        let other = order::parted_from(kept, load, first, MAX_LENGTH).unwrap_or(load.boards);
        return parting(kept, load, first, other, false);
    }
    let acked = order::first_above(kept::part(kept, ACKS_AT, ACKS), 0);
    let board = order::least(kept, load);
    let other = order::parted_from(kept, load, board, acked).unwrap_or(load.boards);
    parting(kept, load, board, other, is_brief(stage))
}

fn is_brief(stage: Stage) -> bool {
    matches!(stage, Stage::Table)
}

// 43: in a night, an acknowledge that is 1.
fn unacknowledged(kept: &[u8], load: Load) -> Words {
    let place = order::first_above(kept::part(kept, ACKS_AT, ACKS), 0);
    let words = b"acknowledge # (line #) is 1, and in a night every byte is acknowledged";
    by(words, place as u64, load.ack_line.unwrap_or(0), 0)
}

// The buffers are too short.
fn little_room(brief: bool) -> Words {
    if brief {
        return by(b"too little room", 0, 0, 0);
    }
    by(b"the reply needs more room than was lent", 0, 0, 0)
}

// What a refusal says; place: the master that it is about. 8: the buffers are too short.
fn words_of(kept: &[u8], load: Load, number: u8, place: usize, stage: Stage) -> Words {
    let brief = is_brief(stage);
    match number {
        12 => masters(load, brief),
        13 | 14 => of_message(kept, load, number, board_of(load.silent, place), brief),
        15 => acknowledges(kept, load, brief),
        16 => undecided(kept, load, stage),
        40 => by(b"the boards do not rise", 0, 0, 0),
        41 => by(b"the lengths do not fit", 0, 0, 0),
        43 => unacknowledged(kept, load),
        _ => little_room(brief),
    }
}

// The number of a refusal and what it says, after a word.
pub(crate) fn put_words(
    page: &mut [u8; PAGE],
    at: usize,
    kept: &[u8],
    load: Load,
    number: u8,
    place: usize,
    stage: Stage,
) -> usize {
    let words = words_of(kept, load, number, place, stage);
    put(page, at, kept, words.form, &words.numbers)
}

// The line of a refused load.
pub(crate) fn put_line(
    page: &mut [u8; PAGE],
    at: usize,
    kept: &[u8],
    load: Load,
    number: u8,
    place: usize,
    stage: Stage,
) -> usize {
    let front = put_front(page, at, kept, b"  refused #: ", &[number as u64]);
    let words = put_words(page, front, kept, load, number, place, stage);
    put_byte(page, words, b'\n')
}
