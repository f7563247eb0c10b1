// Both lines in one level byte, SCL + 2·SDA, and the conditions of the bus between one sample and the next.
#![tactic(auto)]

ghost use Rattle.std.specs.Prelude.{◌≡◌};
ghost use Rattle.levels.specs.Levels as levels;

// The largest level: both lines high.
pub const MAX_LEVEL: u8 = 3;

pub fn level_of(scl: bool, sda: bool) -> u8
    ensures { result ≡ levels.level_of scl sda }
{
    (scl as u8) + 2 * (sda as u8)
}

pub fn scl(level: u8) -> bool
    ensures { result ≡ levels.scl level }
{
    level % 2 == 1
}

pub fn sda(level: u8) -> bool
    ensures { result ≡ levels.sda level }
{
    level / 2 % 2 == 1
}

// SDA falls while SCL stays high.
pub fn start(scl_before: bool, sda_before: bool, scl: bool, sda: bool) -> bool
    ensures { result ≡ levels.start scl_before sda_before scl sda }
{
    scl_before & scl & sda_before & !sda
}

// SDA rises while SCL stays high.
pub fn stop(scl_before: bool, sda_before: bool, scl: bool, sda: bool) -> bool
    ensures { result ≡ levels.stop scl_before sda_before scl sda }
{
    scl_before & scl & !sda_before & sda
}
