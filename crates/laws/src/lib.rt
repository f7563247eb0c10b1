// What every crate builds on: refusals as a table of checks, searches from the front of a list, buffers filled from
// their start, claims about everyone in a list, and the rules by which proofs take a branch.
#![tactic(auto)]

ghost use Rattle.std.specs.Prelude.{◌≡◌, Err};
ghost use Rattle.laws.specs.Refusals.{refused_at};

// A refusal: its number and its place in the input; 0 and 0 where nothing is refused.
#[derive(Clone, Copy)]
pub struct Refusal {
    pub number: u8,
    pub place: usize,
}

// An answer that is refused.
pub fn refused<T>(number: u8, place: usize) -> Result<T, Refusal>
    ensures { result ≡ Err (refused_at number place) }
{
    Err(Refusal { number, place })
}
