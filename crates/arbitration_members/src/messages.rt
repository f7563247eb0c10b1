// Messages as rows by value, one for each master (01: plans; up to sixteen of up to 64 bytes each). A row is what its
// message sends, one number a byte: 256 and the byte, or the byte alone where a restart stands before it.
ghost use Rattle.std.specs.Prelude.{◌≡◌, ◌-◌, ◌≤◌, length, take, drop};
ghost use Rattle.arbitration_rules.specs.Outcome.{sent_at};
ghost use Rattle.arbitration_rules.specs.Reply.{cut};
ghost use Rattle.arbitration_members.specs.Rows as rule;

use arbitration_rules::{MAX_LENGTH, MAX_MASTERS};

// What is sent past a message's end: a byte of 0.
const ZERO: u16 = 256;

// The row of the message that is sent from one index to another, filled up.
fn row(sent: &[u16], from: usize, to: usize) -> [u16; MAX_LENGTH]
    requires { (from ≤ to) × (to ≤ length sent.now) }
    ensures { result ≡ rule.row_of (take (to - from) (drop from sent.now)) }
{
    let mut out = [ZERO; MAX_LENGTH];
    for i in 0..(to - from).min(MAX_LENGTH) {
        out[i] = sent[from + i];
    }
    out
}

// A row for each message, of what the messages send one after the other, each of its length; and empty rows for the
// other masters.
pub fn rows(sent: &[u16], lengths: &[u32]) -> [[u16; MAX_LENGTH]; MAX_MASTERS]
    ensures { result ≡ rule.rows_of (cut lengths.now sent.now) }
{
    let mut out = [[ZERO; MAX_LENGTH]; MAX_MASTERS];
    let mut from: usize = 0;
    for i in 0..lengths.len().min(MAX_MASTERS) {
        let to = arbitration_messages::end_of(sent.len(), from, lengths[i]);
        out[i] = row(sent, from, to);
        from = to;
    }
    out
}

// What a row sends at an index.
fn sent_at(row: [u16; MAX_LENGTH], index: usize) -> u16
    ensures { result ≡ sent_at index row }
{
    row.get(index).copied().unwrap_or(ZERO)
}

// What each row sends at an index.
pub fn column(rows: [[u16; MAX_LENGTH]; MAX_MASTERS], index: usize) -> [u16; MAX_MASTERS]
    ensures { result ≡ rule.column_of rows index }
{
    let mut out = [0u16; MAX_MASTERS];
    for (i, row) in rows.iter().enumerate() {
        out[i] = sent_at(*row, index);
    }
    out
}
