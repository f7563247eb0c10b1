// A source followed line by line.
ghost use Rattle.std.specs.Prelude.{◌≡◌, ◌⊎◌, ℕ, List, Option, None};
ghost use Rattle.rig_lines.specs.Following.{Followed};
ghost use Rattle.rig_lines.specs.Numbers.{largest};
ghost use Rattle.rig_lines.specs.declared.input.Source.{Source};
ghost use Rattle.rig_lines.specs.declared.input.Taken.{Taken};

use crate::input;
use crate::input::{Source, Taken};
use std::io::Read;

// What follows a source: where a state says that the next line is, if there is one, and the state after a line. Both may
// always be called: an `impl` is proved to answer whatever it is given.
pub trait Follower<S: Copy> {
    ghost says: { S → Option Source → Type 0 };

    ghost step: { Self → S → Taken → List ℕ → S → Self → Type 0 };

    fn next(&self, state: S) -> Option<Source>
        ensures { says state result };

    fn after(&mut self, state: S, taken: Taken, line: &[u8]) -> S
        ensures { step self.old state taken line.now result self.new };
}

// What becomes of a state: each line is taken from where `next` says of the state, and `after` answers the state after
// it. It ends with a state of which `next` says none, or with more lines than any input has.
pub fn follow<R: Read, S: Copy, F: Follower<S>>(
    reader: &mut R,
    piece: &mut [u8],
    line: &mut [u8],
    begun: S,
    follower: &mut F,
) -> S
    ensures { (n : ℕ)
        × Followed F.says F.step begun piece.old line.old follower.old result piece.new line.new follower.new n
        × (F.says result None ⊎ n ≡ largest) }
{
    let mut state = begun;
    for _ in 0..u64::MAX {
        let Some(from) = follower.next(state) else {
            return state;
        };
        let taken = input::next_line(reader, piece, line, from);
        state = follower.after(state, taken, line);
    }
    state
}
