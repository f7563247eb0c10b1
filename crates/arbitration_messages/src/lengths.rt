// How many bytes each message has, by its parts.
ghost use Rattle.std.specs.Prelude.{◌≡◌, map, ◌+◌, ◌≤◌, min, length};
ghost use Rattle.laws.specs.Search.{first};
ghost use Rattle.arbitration_rules.specs.Limits.{max_masters};
ghost use Rattle.arbitration_rules.specs.Reply.{cut, padded, itself, total as total_of};
ghost use Rattle.arbitration_messages.specs.Lengths.{limited, bad_lengths_of};

use arbitration_rules::{MAX_LENGTH, MAX_MASTERS};

// Where so many elements end that start at an index, within those there are.
pub fn end_of(size: usize, from: usize, count: u32) -> usize
    ensures { result ≡ min (from + count) size }
{
    from.saturating_add(count as usize).min(size)
}

// How many bytes a message has by its parts; one too many where a part is empty or they are above the limit.
fn length_of(parts: &[u32]) -> usize
    ensures { result ≡ limited parts.now }
{
    let mut sum: usize = 0;
    for part in parts {
        let part = *part as usize;
        if part == 0 {
            return MAX_LENGTH + 1;
        }
        if part > MAX_LENGTH - sum {
            return MAX_LENGTH + 1;
        }
        sum += part;
    }
    sum
}

// That of every message.
pub(crate) fn lengths_of(parts: &[u32], counts: &[u32]) -> [u32; MAX_MASTERS]
    requires { length counts.now ≤ max_masters }
    ensures { result ≡ padded 0 (map limited (cut counts.now parts.now)) }
{
    let mut lengths = [0u32; MAX_MASTERS];
    let mut from: usize = 0;
    for (i, count) in counts.iter().enumerate() {
        let to = end_of(parts.len(), from, *count);
        lengths[i] = length_of(&parts[from..to]) as u32;
        from = to;
    }
    lengths
}

// The first message of no part, or with one byte too many; else how many there are.
pub(crate) fn first_bad(counts: &[u32], lengths: &[u32]) -> usize
    requires { length counts.now ≤ length lengths.now }
    ensures { result ≡ first itself (bad_lengths_of counts.now lengths.now) }
{
    for (i, count) in counts.iter().enumerate() {
        if (*count == 0) | (lengths[i] as usize > MAX_LENGTH) {
            return i;
        }
    }
    counts.len()
}

// The sum of counts or lengths.
pub(crate) fn total(lengths: &[u32]) -> usize
    requires { length lengths.now ≤ max_masters }
    ensures { result ≡ total_of lengths.now }
{
    lengths.iter().map(|length| *length as usize).sum()
}
