// Options on a command line, and what is said of one that is wrong.
ghost use Rattle.std.specs.Prelude.{◌≡◌};
ghost use Rattle.text.specs.Output.{Put};
ghost use Rattle.rig_lines.specs.Options.{is_option, of_command, unknown_option, no_number};

use crate::console::put_quoted;
use text::{put_byte, put_bytes};

const DASH: u8 = b'-';

// A word that begins with two dashes is an option.
pub fn is_option(word: &[u8]) -> bool
    ensures { result ≡ is_option word.now }
{
    if word.len() < 2 {
        return false;
    }
    (word[0] == DASH) & (word[1] == DASH)
}

// The end of a line about a command.
fn put_command(page: &mut [u8], at: usize, command: &[u8]) -> usize
    ensures { Put page.old at (of_command command.now) page.new result }
{
    let of = put_bytes(page, at, b" for ");
    let named = put_bytes(page, of, command);
    put_byte(page, named, b'\n')
}

// The line about an option that a command does not have.
pub fn put_unknown_option(page: &mut [u8], at: usize, word: &[u8], command: &[u8]) -> usize
    ensures { Put page.old at (unknown_option word.now command.now)
        page.new result }
{
    let error = put_bytes(page, at, b"error unknown option ");
    let quoted = put_quoted(page, error, word);
    put_command(page, quoted, command)
}

// The line about a word in the place of the number of --room.
pub fn put_no_number(page: &mut [u8], at: usize, word: &[u8]) -> usize
    ensures { Put page.old at (no_number word.now) page.new result }
{
    let error = put_bytes(page, at, b"error expected a number after --room, not ");
    let quoted = put_quoted(page, error, word);
    put_byte(page, quoted, b'\n')
}
