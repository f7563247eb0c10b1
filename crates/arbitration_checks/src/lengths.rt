// The length of the longest message.
ghost use Rattle.std.specs.Prelude.{◌≡◌};
ghost use Rattle.arbitration_rules.specs.Reply.{longest as longest_of};

// The greatest of the lengths.
pub fn longest(lengths: &[u32]) -> usize
    ensures { result ≡ longest_of lengths.now }
{
    let mut most: usize = 0;
    for length in lengths {
        most = most.max(*length as usize);
    }
    most
}
