// The decoder, stepped by one sample: a struct by value, by the cases of SCL.
ghost use Rattle.std.specs.Prelude.{◌≡◌, [], ◌∷◌, ◌++◌, true, false};
ghost use Rattle.trace.specs.Events.{byte_event};
ghost use Rattle.decode.specs.Decode as decode;
ghost use Rattle.levels.specs.Levels as lines;
ghost use Rattle.decode.specs.Stepping.{Steps, Sound, is_sound, sounded, quietly, list_of};

use super::{Decoder, Listed, Stepped};
use trace::{NACK, PARTIAL, REPEATED_START, START, STOP};

// The event of nine bits.
fn byte_event(value: u8, ninth: bool) -> u16
    ensures { result ≡ byte_event value ninth }
{
    if ninth {
        return NACK + (value as u16);
    }
    value as u16
}

// The event of a START.
fn start_event(framed: bool) -> u16
    ensures { result ≡ decode.start_of framed }
{
    if framed {
        return REPEATED_START;
    }
    START
}

impl Decoder {
    // Before the first sample.
    pub fn idle() -> Decoder
        ensures { result ≡ decode.idle }
    {
        Decoder {
            last: 0,
            framed: false,
            marked: false,
            pending: 0,
            value: 0,
        }
    }

    // Whether a sample can have left it.
    fn is_sound(self) -> bool
        ensures { result ≡ is_sound self }
    {
        if self.pending <= 8 {
            return (self.value as u16) >> self.pending == 0;
        }
        false
    }

    // A level and nothing else new, but for the mark of this high phase.
    fn quiet(self, level: u8, marked: bool) -> Stepped
        ensures { result ≡ quietly self level marked }
    {
        Stepped {
            decoder: Decoder {
                last: level,
                framed: self.framed,
                marked,
                pending: self.pending,
                value: self.value,
            },
            listed: Listed::Nothing,
        }
    }

    // A START or STOP, whose event comes after 515 where bits are pending.
    fn condition(self, level: u8, framed: bool, event: u16) -> Stepped
        ensures { (result.decoder ≡ decode.conditioned framed level)
            × (list_of result.listed ≡ decode.cut self ++ event ∷ []) }
    {
        let decoder = Decoder {
            last: level,
            framed,
            marked: true,
            pending: 0,
            value: 0,
        };
        if self.pending == 0 {
            return Stepped {
                decoder,
                listed: Listed::One(event),
            };
        }
        Stepped {
            decoder,
            listed: Listed::Two(PARTIAL, event),
        }
    }

    // SCL falls in an open frame: a bit, unless a START or STOP fell in this high phase. The ninth makes an event.
    fn fall(self, level: u8) -> Stepped
        requires { Sound self × (lines.scl self.last ≡ true) × (lines.scl level ≡ false) }
        ensures { Steps self level result }
    {
        if !(self.framed & !self.marked) {
            return self.quiet(level, false);
        }
        let high = levels::sda(self.last);
        if self.pending == 8 {
            return Stepped {
                decoder: Decoder {
                    last: level,
                    framed: true,
                    marked: false,
                    pending: 0,
                    value: 0,
                },
                listed: Listed::One(byte_event(self.value, high)),
            };
        }
        Stepped {
            decoder: Decoder {
                last: level,
                framed: true,
                marked: false,
                pending: self.pending + 1,
                value: 2 * self.value + (high as u8),
            },
            listed: Listed::Nothing,
        }
    }

    // SCL stays high.
    fn high(self, level: u8) -> Stepped
        requires { (lines.scl self.last ≡ true) × (lines.scl level ≡ true) }
        ensures { Steps self level result }
    {
        let was = levels::sda(self.last);
        let is = levels::sda(level);
        if was == is {
            return self.quiet(level, self.marked);
        }
        if was {
            return self.condition(level, true, start_event(self.framed));
        }
        if self.framed {
            return self.condition(level, false, STOP);
        }
        Stepped {
            decoder: Decoder {
                last: level,
                framed: false,
                marked: true,
                pending: 0,
                value: 0,
            },
            listed: Listed::Nothing,
        }
    }

    // One sample, for a decoder that a sample left.
    pub(crate) fn next(self, level: u8) -> Stepped
        requires { Sound self }
        ensures { Steps self level result }
    {
        let scl = levels::scl(level);
        if !levels::scl(self.last) {
            return self.quiet(level, self.marked & scl);
        }
        if scl {
            return self.high(level);
        }
        self.fall(level)
    }

    // One sample: the next decoder, and what the sample lists. A decoder that no sample leaves counts as idle.
    pub fn step(self, level: u8) -> Stepped
        ensures { Steps (sounded self) level result }
    {
        if self.is_sound() {
            return self.next(level);
        }
        Decoder::idle().next(level)
    }
}
