// Columns of text on the page, from a start to an end.
use rig_lines::console::{PAGE, put_spaces};
use text::put_byte;

// Spaces up to a width.
pub(crate) fn pad(page: &mut [u8; PAGE], start: usize, end: usize, width: usize) -> usize {
    put_spaces(page, end, width.saturating_sub(end.saturating_sub(start)))
}

// A text longer than its column is cut to one byte less, with `~` after it.
pub(crate) fn cut(page: &mut [u8; PAGE], start: usize, end: usize, width: usize) -> usize {
    if end.saturating_sub(start) > width {
        return put_byte(page, start.saturating_add(width.saturating_sub(1)), b'~');
    }
    end
}

// A column of that width: cut, or padded with spaces.
pub(crate) fn fit(page: &mut [u8; PAGE], start: usize, end: usize, width: usize) -> usize {
    let last = cut(page, start, end, width);
    pad(page, start, last, width)
}
