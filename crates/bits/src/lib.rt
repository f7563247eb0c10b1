// Bits of a byte by position, as functions; the laws that other crates cite are in proofs/.
#![tactic(auto)]

ghost use Rattle.std.specs.Prelude.{◌≡◌};
ghost use Rattle.bits.specs.Positions.{is_set, shift_in};

// Whether the bit at a position is 1; from position 8 on a byte has none.
pub fn is_set(x: u8, position: u8) -> bool
    ensures { result ≡ is_set position x }
{
    if position < 8 {
        return (x >> position) & 1 == 1;
    }
    false
}

// The byte shifted left by one, with a bit entering at position 0.
pub fn shift_in(x: u8, low: bool) -> u8
    ensures { result ≡ shift_in x low }
{
    (x << 1) | (low as u8)
}
