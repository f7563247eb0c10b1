// The messages of the boards that are not silent, one after another, as the library takes those of its masters.
ghost use Rattle.std.specs.Prelude.{◌≡◌, [], ◌∷◌, get_or};
ghost use Rattle.text.specs.Output.{Put};
ghost use Rattle.arbitration_rules.specs.Reply.{joined};
ghost use Rattle.load_text.specs.Messages.{chosen, messages_in, unless};

use arbitration_rules::{MAX_LENGTH, MAX_MASTERS};
use rig_lines::parts;
use text::put_bytes;

// A board's message: the front of its row.
pub fn message_in(rows: &[u8], lengths: [u32; MAX_MASTERS], board: usize) -> &[u8]
    ensures { result.now ≡ get_or (messages_in rows.now lengths) board [] }
{
    if board >= MAX_MASTERS {
        return &rows[..0];
    }
    let start = parts::lent(board * MAX_LENGTH, rows);
    let row = &rows[start..];
    let end = parts::lent(lengths[board] as usize, row);
    &row[..end]
}

// A message put where the board is not silent.
fn put_message(bytes: &mut [u8], at: usize, silent: bool, message: &[u8]) -> usize
    ensures { Put bytes.old at (unless silent message.now) bytes.new result }
{
    if silent {
        return put_bytes(bytes, at, &message[..0]);
    }
    put_bytes(bytes, at, message)
}

// The messages of the boards that are not silent.
pub fn gather(
    rows: &[u8],
    lengths: [u32; MAX_MASTERS],
    silent: [bool; MAX_MASTERS],
    bytes: &mut [u8],
) -> usize
    ensures { Put bytes.old 0 (joined (chosen silent (messages_in rows.now lengths)))
        bytes.new result }
{
    let mut next: usize = 0;
    for board in 0..MAX_MASTERS {
        next = put_message(bytes, next, silent[board], message_in(rows, lengths, board));
    }
    next
}

// A length put where the board is not silent.
pub(crate) fn put_length(out: &mut [u32], at: usize, silent: bool, length: u32) -> usize
    ensures { Put out.old at (unless silent (length ∷ [])) out.new result }
{
    if silent {
        return at.min(out.len());
    }
    if at < out.len() {
        out[at] = length;
        return at + 1;
    }
    out.len()
}

// The lengths of the same.
pub fn gather_lengths(
    lengths: [u32; MAX_MASTERS],
    silent: [bool; MAX_MASTERS],
    out: &mut [u32],
) -> usize
    ensures { Put out.old 0 (chosen silent lengths) out.new result }
{
    let mut next: usize = 0;
    for board in 0..MAX_MASTERS {
        next = put_length(out, next, silent[board], lengths[board]);
    }
    next
}
