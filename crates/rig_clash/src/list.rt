// Boards in a list.
use crate::phrase::put;
use arbitration_rules::MAX_MASTERS;
use rig_lines::console::PAGE;
use text::put_bytes;

// How a list looks: boards by their numbers, by their names or by both, with a space after each comma, or without.
#[derive(Clone, Copy)]
pub(crate) enum Style {
    Numbers,
    Names,
    Both,
    TightNumbers,
    TightNames,
}

impl Style {
    fn mark(self) -> &'static [u8] {
        match self {
            Style::Numbers | Style::TightNumbers => b"#",
            Style::Names | Style::TightNames => b"$",
            Style::Both => b"@",
        }
    }

    fn comma(self) -> &'static [u8] {
        match self {
            Style::TightNumbers | Style::TightNames => b",",
            _ => b", ",
        }
    }
}

// A board, unless it is among others.
fn put_next(
    page: &mut [u8; PAGE],
    from: usize,
    at: usize,
    kept: &[u8],
    style: Style,
    board: usize,
    other: bool,
) -> usize {
    if other {
        return at;
    }
    let next = if at > from {
        put_bytes(page, at, style.comma())
    } else {
        at
    };
    put(page, next, kept, style.mark(), &[board as u64])
}

// All boards but others.
pub(crate) fn put_all(
    page: &mut [u8; PAGE],
    from: usize,
    kept: &[u8],
    style: Style,
    others: [bool; MAX_MASTERS],
) -> usize {
    let mut next = from;
    for (board, other) in others.iter().enumerate() {
        next = put_next(page, from, next, kept, style, board, *other);
    }
    next
}
