// The least of several messages for callers in C or Rust: one function to each number that C gets.
ghost use Rattle.std.specs.Prelude.{◌≡◌, []};
ghost use Rattle.arbitration_rules.specs.Reply.{asked};
ghost use Rattle.arbitration_checks.specs.Order.{least_of};

// The index of the least message, the first of equal ones; 0 where 12 or 13 applies.
#[unsafe(no_mangle)]
pub extern "C" fn kan_least_message(bytes: &[u8], parts: &[u32], counts: &[u32]) -> u64
    ensures { result ≡ (least_of (asked bytes.now parts.now counts.now [])).index }
{
    let found = arbitration_checks::least_message(bytes, parts, counts);
    found.index as u64
}

// How many comparisons of two messages find it: one for each message but the first; 0 where 12 or 13 applies.
#[unsafe(no_mangle)]
pub extern "C" fn kan_least_comparisons(bytes: &[u8], parts: &[u32], counts: &[u32]) -> u64
    ensures { result
        ≡ (least_of (asked bytes.now parts.now counts.now [])).comparisons }
{
    let counted = arbitration_checks::least_message(bytes, parts, counts);
    counted.comparisons as u64
}
