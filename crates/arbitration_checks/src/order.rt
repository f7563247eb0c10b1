// The order of messages: two compared, and the least of several.
ghost use Rattle.std.specs.Prelude.{◌≡◌, [], ◌<◌};
ghost use Rattle.arbitration_rules.specs.Reply.{asked};
ghost use Rattle.arbitration_checks.specs.Order.{compared_of, LeastAt, least_of};

use arbitration_messages::{Messages, NO_RESTART};

// Whether a message comes before another or is the same; and how many comparisons have been made, with this one.
#[derive(Clone, Copy)]
pub(crate) struct Compared {
    pub(crate) precedes: bool,
    pub(crate) comparisons: usize,
}

// Where a least message lies in what is sent, with its index and how many comparisons of two messages found it.
#[derive(Clone, Copy)]
pub(crate) struct Located {
    pub(crate) index: usize,
    pub(crate) from: usize,
    pub(crate) to: usize,
    pub(crate) comparisons: usize,
}

// A least message: its index, and how many comparisons of two messages found it.
#[derive(Clone, Copy)]
pub struct Least {
    pub index: usize,
    pub comparisons: usize,
}

// Compares two messages, and raises the count of comparisons by one.
pub(crate) fn compare(message: &[u16], other: &[u16], comparisons: usize) -> Compared
    requires { comparisons < 18446744073709551615 }
    ensures { result ≡ compared_of message.now other.now comparisons }
{
    let counted = comparisons + 1;
    for (i, sent) in message.iter().enumerate() {
        if i == other.len() {
            return Compared {
                precedes: *sent < NO_RESTART,
                comparisons: counted,
            };
        }
        if *sent != other[i] {
            return Compared {
                precedes: *sent < other[i],
                comparisons: counted,
            };
        }
    }
    if message.len() < other.len() {
        return Compared {
            precedes: other[message.len()] >= NO_RESTART,
            comparisons: counted,
        };
    }
    Compared {
        precedes: true,
        comparisons: counted,
    }
}

// The least message, the first of equal ones, in one pass with the best so far.
pub(crate) fn locate_least(sent: &[u16], lengths: &[u32]) -> Located
    ensures { LeastAt lengths.now sent.now result }
{
    if lengths.len() == 0 {
        return Located {
            index: 0,
            from: 0,
            to: 0,
            comparisons: 0,
        };
    }
    let mut from = arbitration_messages::end_of(sent.len(), 0, lengths[0]);
    let mut index: usize = 0;
    let mut best_from: usize = 0;
    let mut best_to = from;
    let mut comparisons: usize = 0;
    for i in 1..lengths.len() {
        let to = arbitration_messages::end_of(sent.len(), from, lengths[i]);
        let compared = compare(&sent[best_from..best_to], &sent[from..to], comparisons);
        comparisons = compared.comparisons;
        if !compared.precedes {
            index = i;
            best_from = from;
            best_to = to;
        }
        from = to;
    }
    Located {
        index,
        from: best_from,
        to: best_to,
        comparisons,
    }
}

// The first of a request's least messages; 0 and 0 where 12 or 13 applies.
pub fn least_message(bytes: &[u8], parts: &[u32], counts: &[u32]) -> Least
    ensures { result ≡ least_of (asked bytes.now parts.now counts.now []) }
{
    let Ok(messages) = arbitration_messages::gather(bytes, parts, counts) else {
        return Least {
            index: 0,
            comparisons: 0,
        };
    };
    let Messages {
        sent,
        size,
        lengths,
        count,
    } = messages;
    let located = locate_least(&sent[..size], &lengths[..count]);
    Least {
        index: located.index,
        comparisons: located.comparisons,
    }
}
