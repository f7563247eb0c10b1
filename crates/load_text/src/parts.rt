// The parts of messages, with a repeated START between two. Each board has a row for them, like that of its bytes:
// where a part begins stands its length, and 0 at every other byte.
ghost use Rattle.std.specs.Prelude.{◌≡◌, [], ◌∷◌, ◌≤◌, length, get_or};
ghost use Rattle.arbitration_rules.specs.Limits.{max_length};
ghost use Rattle.arbitration_rules.specs.Reply.{joined};
ghost use Rattle.text.specs.Output.{Put};
ghost use Rattle.load_text.specs.Messages.{chosen, unless, part_lengths, rows_in, parts_in, part_counts};

use crate::messages::{message_in, put_length};
use arbitration_rules::{MAX_LENGTH, MAX_MASTERS};

// Whether a part begins, as a number.
fn begins(start: u8) -> usize
    ensures value { result ≡ length (part_lengths (start ∷ [])) }
    ensures upper_bound { result ≤ 1 }
{
    if start == 0 { 0 } else { 1 }
}

// How many parts begin in a row, or in some of it.
pub fn count_parts(row: &[u8]) -> usize
    ensures { result ≡ length (part_lengths row.now) }
{
    let mut count: usize = 0;
    for start in row {
        count += begins(*start);
    }
    count
}

// A board's row.
fn row_in(rows: &[u8], board: usize) -> &[u8]
    ensures result_value { result.now ≡ get_or (rows_in rows.now) board [] }
    ensures result_len_bound { length result.now ≤ max_length }
{
    message_in(rows, [MAX_LENGTH as u32; MAX_MASTERS], board)
}

fn wide(length: u8) -> u32
    ensures { result ≡ length }
{
    length as u32
}

// The parts of a row put where the board is not silent.
fn put_parts(out: &mut [u32], at: usize, silent: bool, row: &[u8]) -> usize
    ensures { Put out.old at (unless silent (part_lengths row.now)) out.new result }
{
    let mut next = at.min(out.len());
    for start in row {
        next = put_length(out, next, silent | (*start == 0), wide(*start));
    }
    next
}

// The lengths of all parts of the boards that are not silent, message after message.
pub fn gather_parts(rows: &[u8], silent: [bool; MAX_MASTERS], out: &mut [u32]) -> usize
    ensures { Put out.old 0 (joined (chosen silent (parts_in rows.now)))
        out.new result }
{
    let mut next: usize = 0;
    for board in 0..MAX_MASTERS {
        next = put_parts(out, next, silent[board], row_in(rows, board));
    }
    next
}

// How many parts a board has.
fn count_in(rows: &[u8], board: usize) -> u32
    ensures { result ≡ get_or (part_counts rows.now) board 0 }
{
    count_parts(row_in(rows, board)) as u32
}

// How many parts each of the same has.
pub fn gather_counts(rows: &[u8], silent: [bool; MAX_MASTERS], out: &mut [u32]) -> usize
    ensures { Put out.old 0 (chosen silent (part_counts rows.now)) out.new result }
{
    let mut next: usize = 0;
    for board in 0..MAX_MASTERS {
        next = put_length(out, next, silent[board], count_in(rows, board));
    }
    next
}
