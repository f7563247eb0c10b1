// Words in a list, each in a line of its own.
ghost use Rattle.std.specs.Prelude.{◌≡◌};
ghost use Rattle.rig_lines.specs.Lists.{after_lines, line_at, place_of};

use check::same;
use text::{after_line, first_line};

// In no list is a word looked for past so many.
const MANY: usize = 16;

// A list past so many lines.
fn after_lines(list: &[u8], n: usize) -> &[u8]
    ensures { result.now ≡ after_lines n list.now }
{
    let mut rest = list;
    for _ in 0..n {
        rest = after_line(rest);
    }
    rest
}

// The words at a place of a list, counted from 0; none where it has ended.
pub fn line_of(list: &[u8], place: usize) -> &[u8]
    ensures { result.now ≡ line_at place list.now }
{
    first_line(after_lines(list, place))
}

// The place of a word in a list; 16 where the first so many have no such word.
pub fn place_of(list: &[u8], word: &[u8]) -> usize
    ensures { result ≡ place_of 16 list.now word.now }
{
    let mut rest = list;
    for place in 0..MANY {
        if same(first_line(rest), word) {
            return place;
        }
        rest = after_line(rest);
    }
    MANY
}
