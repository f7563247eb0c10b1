// A row of the drawing: its bytes and bits, and the two lines of the bus.
use crate::order::byte_at;
use crate::phrase::{begin_numbers, line_numbers, put_numbers};
use crate::rows;
use crate::rows::Next;
use crate::svg::{LEFT, NAMES, x_of};
use crate::wave::{Wire, is_high_at};
use rig_lines::console::PAGE;
use text::{put_byte, put_bytes};

// The bits, below the top of a row.
const BITS: usize = 30;

// The symbol of a bit, from the first on: a byte's bits, then whether it was acknowledged.
fn symbol_of(byte: u8, ack: u8, bit: usize) -> u8 {
    if bit >= rows::BITS - 1 {
        return if ack == 0 { b'A' } else { b'N' };
    }
    b'0' + (byte >> (7 - bit)) % 2
}

// A bit of a byte at a column.
fn put_bit(
    page: &mut [u8; PAGE],
    at: usize,
    byte: u8,
    ack: u8,
    bit: usize,
    column: usize,
    y: usize,
) -> usize {
    let x = x_of(column.saturating_add(2 * bit.min(rows::BITS)));
    let words = b"<text x=\"#\" y=\"#\">";
    let text = begin_numbers(page, at, words, &[x, y.saturating_add(BITS) as u64]);
    let symbol = put_byte(page, text, symbol_of(byte, ack, bit));
    put_bytes(page, symbol, b"</text>\n")
}

fn put_bits(page: &mut [u8; PAGE], at: usize, byte: u8, ack: u8, column: usize, y: usize) -> usize {
    let mut next = at;
    for bit in 0..rows::BITS {
        next = put_bit(page, next, byte, ack, bit, column, y);
    }
    next
}

// A byte, its bits, and what follows it.
fn put_cell(
    page: &mut [u8; PAGE],
    at: usize,
    carried: &[u8],
    acks: &[u8],
    parts: &[u8],
    first: usize,
    byte: usize,
    y: usize,
) -> usize {
    let column = rows::column_of(parts, first, byte);
    let value = byte_at(carried, byte);
    let top = y.saturating_add(NAMES) as u64;
    let name = b"<text x=\"#\" y=\"#\">%</text>\n";
    let named = begin_numbers(page, at, name, &[x_of(column), top, value as u64]);
    let bits = put_bits(page, named, value, byte_at(acks, byte), column, y);
    let after = [x_of(column.saturating_add(rows::BYTE + 1)), top];
    match rows::next_of(parts, byte, carried.len()) {
        Next::Byte => bits,
        Next::Restart => begin_numbers(page, bits, b"<text x=\"#\" y=\"#\">Sr</text>\n", &after),
        Next::Stop => begin_numbers(page, bits, b"<text x=\"#\" y=\"#\">P</text>\n", &after),
    }
}

pub(crate) fn put_cells(
    page: &mut [u8; PAGE],
    at: usize,
    carried: &[u8],
    acks: &[u8],
    parts: &[u8],
    first: usize,
    y: usize,
) -> usize {
    let mut next = put_first(page, at, first, y);
    for byte in first..rows::end_of(first, carried.len()) {
        next = put_cell(page, next, carried, acks, parts, first, byte, y);
    }
    next
}

// The first byte's index, and START in the first row.
fn put_first(page: &mut [u8; PAGE], at: usize, first: usize, y: usize) -> usize {
    let top = y.saturating_add(NAMES) as u64;
    let index = b"<text x=\"8\" y=\"#\">byte #</text>\n";
    let named = begin_numbers(page, at, index, &[top, first as u64]);
    line_numbers(
        page,
        named,
        first == 0,
        b"<text x=\"#\" y=\"#\">S</text>",
        &[x_of(1), top],
    )
}

// A line's height at a level.
fn y_at(levels: &[u8], at: usize, wire: Wire, y: usize) -> usize {
    if is_high_at(levels, at, wire) {
        return y;
    }
    y.saturating_add(18)
}

// From one column to the next: down or up where the line changed, and on.
fn put_step(
    page: &mut [u8; PAGE],
    at: usize,
    levels: &[u8],
    from: usize,
    i: usize,
    wire: Wire,
    y: usize,
) -> usize {
    let height = y_at(levels, i, wire, y);
    let same = (i <= from) | (y_at(levels, i.saturating_sub(1), wire, y) == height);
    let x = x_of(i.saturating_sub(from).saturating_add(1));
    if same {
        return put_numbers(page, at, b" H#", &[x]);
    }
    put_numbers(page, at, b" V# H#", &[height as u64, x])
}

fn put_steps(
    page: &mut [u8; PAGE],
    at: usize,
    levels: &[u8],
    from: usize,
    end: usize,
    wire: Wire,
    y: usize,
) -> usize {
    let mut next = at;
    for i in from..end {
        next = put_step(page, next, levels, from, i, wire, y);
    }
    next
}

// A line of the bus in a row, high at a height; words: its name, and where it begins.
fn put_path(
    page: &mut [u8; PAGE],
    at: usize,
    words: &[u8],
    levels: &[u8],
    from: usize,
    end: usize,
    wire: Wire,
    y: usize,
) -> usize {
    let numbers = [
        y.saturating_add(14) as u64,
        LEFT as u64,
        y_at(levels, from, wire, y) as u64,
    ];
    let start = begin_numbers(page, at, words, &numbers);
    let steps = put_steps(page, start, levels, from, end, wire, y);
    put_bytes(
        page,
        steps,
        b"\" fill=\"none\" stroke=\"#1b4f72\" stroke-width=\"2\"/>\n",
    )
}

// The two lines of the bus in a row.
pub(crate) fn put_signals(
    page: &mut [u8; PAGE],
    at: usize,
    levels: &[u8],
    from: usize,
    end: usize,
    y: usize,
) -> usize {
    let scl = b"<text x=\"8\" y=\"#\">SCL</text>\n<path d=\"M# #";
    let sda = b"<text x=\"8\" y=\"#\">SDA</text>\n<path d=\"M# #";
    let first = put_path(
        page,
        at,
        scl,
        levels,
        from,
        end,
        Wire::Scl,
        y.saturating_add(40),
    );
    put_path(
        page,
        first,
        sda,
        levels,
        from,
        end,
        Wire::Sda,
        y.saturating_add(74),
    )
}
