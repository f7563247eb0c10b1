// How many levels the bus records of what it carries.
ghost use Rattle.std.specs.Prelude.{◌≡◌, ◌≤◌, length};
ghost use Rattle.arbitration_rules.specs.Outcome.{restart_count, level_count};
ghost use Rattle.arbitration_messages.specs.Marks.{max_sent};

use arbitration_messages::NO_RESTART;

// How many restarts stand in it.
fn restart_count(carried: &[u16]) -> usize
    ensures { result ≡ restart_count carried.now }
{
    carried.iter().filter(|sent| **sent < NO_RESTART).count()
}

// 5 and 18 for each byte, 3 for each restart.
pub(crate) fn level_count(carried: &[u16]) -> usize
    requires { length carried.now ≤ max_sent }
    ensures { result ≡ level_count carried.now }
{
    5 + 18 * carried.len() + 3 * restart_count(carried)
}
