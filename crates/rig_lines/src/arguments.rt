// The words of the command line, by their numbers; that of 0 is the program's own name.
ghost use Rattle.io.specs.Counts.{IsPrefixLen};
ghost use Rattle.rig_lines.specs.Arguments.{Within};

use std::env::FillError;
use std::rt::Env;

// Puts a word at the start of a buffer; answers its length, or why it is not there.
pub fn find<E: Env>(env: &E, argument: usize, space: &mut [u8]) -> Result<usize, FillError>
    ensures { Within result space.new }
{
    env.arg(argument, space)
}

// The same; answers the word's length, and 0 where it is missing or longer than the buffer.
pub fn word<E: Env>(env: &E, argument: usize, space: &mut [u8]) -> usize
    ensures { IsPrefixLen result space.new }
{
    find(env, argument, space).unwrap_or(0)
}

// How many words there are.
pub fn count<E: Env>(env: &E) -> usize {
    let mut space = [0u8; 0];
    for n in 0..usize::MAX {
        if let Err(FillError::NotPresent) = find(env, n, &mut space) {
            return n;
        }
    }
    usize::MAX
}
