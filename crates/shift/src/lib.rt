// The shift register of a serial module: 16 bits wide or 8, the lowest bit leaving first or the highest.
#![tactic(auto)]

ghost use Rattle.std.specs.Prelude.{◌≡◌, suc, ◌+◌, ◌*◌, ◌/◌, ◌%◌, ◌^◌};
ghost use mir.Val.{bool_byte};
ghost use Rattle.shift.specs.Shift.{top_of, outgoing as outgoing_rule, shifted as shifted_rule};

// The bit that leaves next.
pub fn outgoing(register: u16, wide: bool, lsb: bool) -> bool
    ensures { result ≡ outgoing_rule (top_of wide) lsb register }
{
    if lsb {
        return register % 2 == 1;
    }
    if wide {
        return register / 32768 % 2 == 1;
    }
    register / 128 % 2 == 1
}

// A bit at the place of a weight.
fn weighted(bit: bool, weight: u16) -> u16
    ensures { result ≡ bool_byte bit * weight }
{
    if bit { weight } else { 0 }
}

// A bit enters at the low end, and the highest leaves.
// The width is a case of the rule (`top_of`); a const parameter would branch on it at each caller.
fn entered_low(register: u16, wide: bool, entering: bool) -> u16
    ensures { result ≡ register % 2 ^ top_of wide * 2 + bool_byte entering }
{
    if wide {
        return register % 32768 * 2 + weighted(entering, 1);
    }
    register % 128 * 2 + weighted(entering, 1)
}

// A bit enters at the high end, and the lowest leaves.
// The width is a case of the rule (`top_of`), as above.
fn entered_high(register: u16, wide: bool, entering: bool) -> u16
    ensures { result ≡ register % 2 ^ suc (top_of wide) / 2 + bool_byte entering * 2 ^ top_of wide }
{
    if wide {
        return register / 2 + weighted(entering, 32768);
    }
    register % 256 / 2 + weighted(entering, 128)
}

// The register after one shift, with a bit entering. Of a register of 8 bits the higher byte is not read, and is 0.
// The direction is a case of the rule (`shifted`).
pub fn shifted(register: u16, wide: bool, lsb: bool, entering: bool) -> u16
    ensures { result ≡ shifted_rule (top_of wide) lsb entering register }
{
    if lsb {
        return entered_high(register, wide, entering);
    }
    entered_low(register, wide, entering)
}
