// The drawing of a load, an SVG document: the rows and columns of its waveform.
use crate::cells::{put_cells, put_signals};
use crate::kept::{ACKS, ACKS_AT};
use crate::load::Load;
use crate::outcome::{LEVELS, Outcome};
use crate::phrase::{begin_numbers, line_numbers};
use crate::{kept, order, rows};
use arbitration_rules::MAX_MASTERS;
use rig_lines::console::PAGE;
use text::{put_byte, put_bytes};

// The first column, the width of each, and the most that a row has.
pub(crate) const LEFT: usize = 80;

const STEP: usize = 12;

const WIDEST: usize = 65;

// So many columns at least, that the heading and the name of who lost in the last end before the border.
const LEAST: usize = 45;

// The first row, the height of each, and what each board that lost in it adds.
const TOP: usize = 30;

const HEIGHT: usize = 112;

const LOSER: usize = 14;

// Below the top of a row: the bytes, and the boards that lost.
pub(crate) const NAMES: usize = 12;

const LOST: usize = 110;

pub(crate) fn x_of(column: usize) -> u64 {
    (LEFT + STEP * column.min(LEVELS)) as u64
}

// A byte of a text: what XML keeps for itself by its name, and nothing but ASCII.
fn put_escaped_byte(page: &mut [u8; PAGE], at: usize, b: u8) -> usize {
    match b {
        b'&' => put_bytes(page, at, b"&amp;"),
        b'<' => put_bytes(page, at, b"&lt;"),
        b'>' => put_bytes(page, at, b"&gt;"),
        _ => put_byte(page, at, ascii(b)),
    }
}

fn ascii(b: u8) -> u8 {
    if b < 128 { b } else { b'?' }
}

fn put_escaped(page: &mut [u8; PAGE], at: usize, text: &[u8]) -> usize {
    let mut next = at;
    for b in text {
        next = put_escaped_byte(page, next, *b);
    }
    next
}

// The name of the load, and its title.
fn put_title(page: &mut [u8; PAGE], at: usize, kept: &[u8]) -> usize {
    let title = kept::title(kept);
    let name = put_escaped(page, at, kept::name(kept));
    let space = put_bytes(page, name, if title.len() == 0 { b"" } else { b" " });
    put_escaped(page, space, title)
}

// The document begins: how wide and high it is, and what it shows.
fn put_head(page: &mut [u8; PAGE], at: usize, kept: &[u8], width: usize, height: usize) -> usize {
    let numbers = [width as u64, height as u64, width as u64, height as u64];
    let root = begin_numbers(
        page,
        at,
        b"<svg xmlns=\"http://www.w3.org/2000/svg\" width=\"#\" height=\"#\" viewBox=\"0 0 # #\" \
        font-family=\"monospace\" font-size=\"12\">\n<title>",
        &numbers,
    );
    let title = put_title(page, root, kept);
    let words =
        b"</title>\n<rect width=\"100%\" height=\"100%\" fill=\"white\"/>\n<text x=\"8\" y=\"20\">";
    let text = put_bytes(page, title, words);
    let again = put_title(page, text, kept);
    put_bytes(page, again, b"</text>\n")
}

// The bit where a board lost at a byte of a row, shaded.
fn put_shade(
    page: &mut [u8; PAGE],
    at: usize,
    load: Load,
    outcome: Outcome,
    parts: &[u8],
    first: usize,
    board: usize,
    y: usize,
) -> usize {
    if !rows::lost_in(
        load,
        outcome,
        board,
        first,
        rows::end_of(first, outcome.count),
    ) {
        return at;
    }
    let x = x_of(rows::lost_column(load, outcome, parts, board, first));
    let words = b"<rect x=\"#\" y=\"#\" width=\"24\" height=\"80\" fill=\"";
    let rect = begin_numbers(page, at, words, &[x, y.saturating_add(16) as u64]);
    put_bytes(page, rect, b"#f9e79f\"/>\n")
}

fn put_shades(
    page: &mut [u8; PAGE],
    at: usize,
    load: Load,
    outcome: Outcome,
    parts: &[u8],
    first: usize,
    y: usize,
) -> usize {
    let mut next = at;
    for board in 0..load.boards {
        next = put_shade(page, next, load, outcome, parts, first, board, y);
    }
    next
}

// A board that lost: its number, its name, and `lost`.
fn put_loser(
    page: &mut [u8; PAGE],
    at: usize,
    kept: &[u8],
    load: Load,
    board: usize,
    column: usize,
    y: usize,
) -> usize {
    let words: &[u8] = if load.named {
        b"<text x=\"#\" y=\"#\"># "
    } else {
        b"<text x=\"#\" y=\"#\">#"
    };
    let number = begin_numbers(page, at, words, &[x_of(column), y as u64, board as u64]);
    let name = put_escaped(page, number, kept::board_name(kept, board));
    put_bytes(page, name, b" lost</text>\n")
}

// The boards that lost in a row, one below the other.
fn put_losers(
    page: &mut [u8; PAGE],
    at: usize,
    kept: &[u8],
    load: Load,
    outcome: Outcome,
    parts: &[u8],
    first: usize,
    top: usize,
) -> usize {
    let end = rows::end_of(first, outcome.count);
    let mut next = at;
    let mut y = top.saturating_add(LOST);
    for board in 0..load.boards {
        if rows::lost_in(load, outcome, board, first, end) {
            let column = rows::lost_column(load, outcome, parts, board, first);
            next = put_loser(page, next, kept, load, board, column, y);
            y = y.saturating_add(LOSER);
        }
    }
    next
}

fn put_row(
    page: &mut [u8; PAGE],
    at: usize,
    kept: &[u8],
    load: Load,
    outcome: Outcome,
    carried: &[u8],
    levels: &[u8],
    first: usize,
    y: usize,
) -> usize {
    let acks = kept::part(kept, ACKS_AT, ACKS);
    let parts = order::parts(kept, load, outcome.winner);
    let shades = put_shades(page, at, load, outcome, parts, first, y);
    let cells = put_cells(page, shades, carried, acks, parts, first, y);
    let end = rows::end_level(parts, rows::end_of(first, outcome.count), outcome);
    let from = rows::first_level(parts, first);
    let lines = put_signals(page, cells, levels, from, end, y);
    put_losers(page, lines, kept, load, outcome, parts, first, y)
}

// The top of the row below.
fn below(load: Load, outcome: Outcome, first: usize, y: usize) -> usize {
    let lost = rows::losers(load, outcome, first, rows::end_of(first, outcome.count));
    y.saturating_add(HEIGHT + LOSER * lost.min(MAX_MASTERS))
}

fn put_rows(
    page: &mut [u8; PAGE],
    at: usize,
    kept: &[u8],
    load: Load,
    outcome: Outcome,
    carried: &[u8],
    levels: &[u8],
) -> usize {
    let mut next = at;
    let mut y = TOP;
    for row in 0..rows::count_of(outcome.count) {
        let first = rows::first_of(row);
        next = put_row(page, next, kept, load, outcome, carried, levels, first, y);
        y = below(load, outcome, first, y);
    }
    next
}

fn width_of(outcome: Outcome) -> usize {
    100 + LEFT + STEP * outcome.levels.max(LEAST).min(WIDEST)
}

fn height_of(load: Load, outcome: Outcome) -> usize {
    let lost = rows::losers(load, outcome, 0, outcome.count).min(MAX_MASTERS);
    TOP + HEIGHT * rows::count_of(outcome.count).min(LEVELS) + LOSER * lost
}

// The drawing of a load that was not refused.
pub(crate) fn put(
    page: &mut [u8; PAGE],
    at: usize,
    kept: &[u8],
    load: Load,
    outcome: Outcome,
    carried: &[u8],
    levels: &[u8],
) -> usize {
    if outcome.is_refused() {
        return at;
    }
    let head = put_head(page, at, kept, width_of(outcome), height_of(load, outcome));
    let bytes = kept::part(carried, 0, outcome.count);
    let rows = put_rows(page, head, kept, load, outcome, bytes, levels);
    line_numbers(page, rows, true, b"</svg>", &[])
}
