// The wire in a run: who pulls it, the level sampled last, what of a byte has been taken from it, and how many levels
// are recorded.
ghost use Rattle.std.specs.Prelude.{◌≡◌, length};
ghost use Rattle.arbitration_run.specs.Wire as rule;

use arbitration_pass::{Effect, Operation, Seen};

#[derive(Clone, Copy)]
pub struct Wire {
    // whether any module pulls SCL, and SDA; whether the acknowledge pulls SDA
    pub scl: bool,
    pub sda: bool,
    pub pull: bool,
    pub level: u8,
    pub byte: u8,
    pub recorded: usize,
}

impl Wire {
    // High unless someone pulls it.
    pub(crate) fn shown(self) -> u8
        ensures { result ≡ rule.shown self }
    {
        levels::level_of(!self.scl, !(self.pull | self.sda))
    }

    // After a pass: a sample was of the level shown before it.
    pub(crate) fn saw(mut self, operation: Operation, seen: Seen) -> Wire
        ensures { result ≡ rule.saw operation seen self }
    {
        let level = match operation {
            Operation::Sample => self.shown(),
            _ => self.level,
        };
        self.level = level;
        self.scl = seen.scl;
        self.sda = seen.sda;
        self
    }

    fn pulling(mut self, pull: bool) -> Wire
        ensures { result ≡ rule.pulling pull self }
    {
        self.pull = pull;
        self
    }

    // A byte begins.
    fn begun(mut self) -> Wire
        ensures { result ≡ rule.begun self }
    {
        self.byte = 0;
        self
    }

    // The level sampled last is recorded.
    fn noted(mut self, levels: &mut [u8]) -> Wire
        ensures { (result ≡ rule.noted (length levels.old) self)
            × (levels.new ≡ rule.stored self levels.old) }
    {
        let recorded = self.recorded;
        if recorded < levels.len() {
            levels[recorded] = self.level;
            self.recorded = recorded + 1;
        }
        self
    }

    // The bit on the wire joins the byte.
    fn taken(mut self) -> Wire
        ensures { result ≡ rule.taken self }
    {
        self.byte = bits::shift_in(self.byte, levels::sda(self.level));
        self
    }

    // What follows from an instant; the acknowledge pulls where there is one.
    pub(crate) fn affected(self, effect: Effect, acknowledge: bool, levels: &mut [u8]) -> Wire
        ensures { (result ≡ rule.affected (length levels.old) effect acknowledge self)
            × (levels.new ≡ rule.recorded_in effect self levels.old) }
    {
        match effect {
            Effect::Begin => self.begun(),
            Effect::Release => self.pulling(false),
            Effect::Acknowledge => self.pulling(acknowledge),
            Effect::Record => self.noted(levels),
            Effect::Bit(_) => self.noted(levels).taken(),
            _ => self,
        }
    }
}
