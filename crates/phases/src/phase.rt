// The phases of SCL: from one sample at which it changes to the next.
ghost use Rattle.std.specs.Prelude.{◌≡◌, ◌≤◌, length};
ghost use Rattle.trace.specs.Trace.{Rising, place_in};
ghost use Rattle.phases.specs.Phases as phases;

use super::Mode;

// The least length of a low and of a high phase.
#[derive(Clone, Copy)]
pub(crate) struct Limits {
    pub(crate) low: u32,
    pub(crate) high: u32,
}

// The phase that runs at a sample: SCL in it, whether the trace holds the sample that began it, and that one's stamp.
#[derive(Clone, Copy)]
pub(crate) struct Phase {
    pub(crate) scl: bool,
    pub(crate) whole: bool,
    pub(crate) began: u32,
}

// What a mode allows, in units of 100 ns.
fn least(mode: Mode) -> Limits
    ensures { result ≡ phases.least mode }
{
    match mode {
        Mode::Unchecked => Limits { low: 0, high: 0 },
        Mode::Standard => Limits { low: 47, high: 40 },
        Mode::Fast => Limits { low: 13, high: 6 },
    }
}

impl Phase {
    // The first sample's phase: the trace's start cuts it off.
    fn cut_off(level: u8) -> Phase
        ensures { result ≡ phases.cut_off level }
    {
        Phase {
            scl: levels::scl(level),
            whole: false,
            began: 0,
        }
    }

    // Whether a sample ends it, and it is whole and shorter than allowed.
    fn ends_short(self, limits: Limits, stamp: u32, level: u8) -> bool
        requires { self.began ≤ stamp }
        ensures { result ≡ phases.ends_short limits self stamp level }
    {
        if levels::scl(level) == self.scl {
            return false;
        }
        if !self.whole {
            return false;
        }
        if self.scl {
            return stamp - self.began < limits.high;
        }
        stamp - self.began < limits.low
    }

    // The phase that runs at the next sample: a change of SCL begins one.
    fn next(self, stamp: u32, level: u8) -> Phase
        ensures { result ≡ phases.next self stamp level }
    {
        let scl = levels::scl(level);
        if scl == self.scl {
            return self;
        }
        Phase {
            scl,
            whole: true,
            began: stamp,
        }
    }
}

// The first sample that ends a whole phase shorter than the mode allows, if there is one.
pub(crate) fn first_short(mode: Mode, stamps: &[u32], levels: &[u8]) -> Option<usize>
    requires { (length stamps.now ≡ length levels.now) × Rising stamps.now }
    ensures { result ≡ place_in levels.now (phases.first_short mode stamps.now levels.now) }
{
    if levels.len() == 0 {
        return None;
    }
    let limits = least(mode);
    let mut phase = Phase::cut_off(levels[0]);
    for i in 1..levels.len() {
        let stamp = stamps[i];
        let level = levels[i];
        if phase.ends_short(limits, stamp, level) {
            return Some(i);
        }
        phase = phase.next(stamp, level);
    }
    None
}
