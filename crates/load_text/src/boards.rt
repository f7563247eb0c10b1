// The boards that are not silent are the library's masters, in the order of their numbers.
ghost use Rattle.std.specs.Prelude.{◌≡◌, ◌≤◌};
ghost use Rattle.load_text.specs.Boards.{board_of, master_of, left_after, count_of};

use arbitration_rules::MAX_MASTERS;

// The masters that are left to pass, after a board.
fn left_after(silent: bool, left: usize) -> usize
    ensures { result ≡ left_after silent left }
{
    if silent | (left == 0) { left } else { left - 1 }
}

// The board of a master, where there is one; else how many boards there are.
pub fn board_of(silent: [bool; MAX_MASTERS], master: usize) -> usize
    ensures { result ≡ board_of silent master }
{
    let mut left = master;
    for board in 0..MAX_MASTERS {
        if !silent[board] & (left == 0) {
            return board;
        }
        left = left_after(silent[board], left);
    }
    MAX_MASTERS
}

// A board counts as a master where it is not silent.
fn count(silent: bool) -> usize
    ensures value { result ≡ count_of silent }
    ensures upper_bound { result ≤ 1 }
{
    if silent { 0 } else { 1 }
}

// How many masters there are before a board: its own number among them, where it is one.
pub fn master_of(silent: [bool; MAX_MASTERS], board: usize) -> usize
    ensures { result ≡ master_of silent board }
{
    let mut master: usize = 0;
    for i in 0..board.min(MAX_MASTERS) {
        master += count(silent[i]);
    }
    master
}
