// 01's steps as data: a run has parts, each a row of instants; an instant is one pass over the modules, and what
// follows from it on the bus.
ghost use Rattle.std.specs.Prelude.{◌≡◌};
ghost use Rattle.arbitration_pass.specs.Instants as rows;

// What the modules do in a pass; registers are written by those still contending, at LetGo also by those that lost in
// the byte, at Heed by all that lost.
#[derive(Clone, Copy)]
pub enum Operation {
    // powered up and set up
    Enter,
    Sample,
    // SDA falls: START
    Pull,
    // START's flag is cleared: SCL is let go
    Clear,
    // the byte to send
    Load,
    // who lost lets go of both lines, the rest let go of SDA for the acknowledge
    LetGo,
    // SDA is taken low for the STOP
    Lower,
    // SDA rises: STOP
    Raise,
    // as after set-up
    Rest,
    // SDA is let go high for a repeated START
    Rise,
    // the repeated START's flag is cleared, also by who lost: SCL is let go
    Heed,
}

// What then follows on the bus.
#[derive(Clone, Copy)]
pub enum Effect {
    Nothing,
    // a byte begins
    Begin,
    // the acknowledge's pull ends, or begins if there is one
    Release,
    Acknowledge,
    // the level is recorded
    Record,
    // and a bit of the byte is judged and taken, with the last one the byte
    Bit(u8),
    // who lost in the byte is done with it
    Settle,
}

#[derive(Clone, Copy)]
pub struct Instant {
    pub operation: Operation,
    // after it all modules tick
    pub ticks: bool,
    pub effect: Effect,
}

// Set-up, step 1, a restart and a byte of step 2, step 4.
#[derive(Clone, Copy)]
pub enum Part {
    Entry,
    Opening,
    Restart,
    Byte,
    Closing,
}

fn write(operation: Operation, ticks: bool) -> Instant
    ensures { result ≡ rows.write operation ticks }
{
    Instant {
        operation,
        ticks,
        effect: Effect::Nothing,
    }
}

fn sample(effect: Effect, ticks: bool) -> Instant
    ensures { result ≡ rows.sample effect ticks }
{
    Instant {
        operation: Operation::Sample,
        ticks,
        effect,
    }
}

// Step 1. The bus is idle, both lines high, until the pull; SCL stays high in the sample that shows START, and falls
// once its flag is cleared.
fn opening(at: usize) -> Instant
    ensures { result ≡ rows.opening at }
{
    if at == 1 {
        return write(Operation::Pull, false);
    }
    if at == 3 {
        return write(Operation::Clear, false);
    }
    sample(Effect::Record, false)
}

// Step 3, a bit turn past its first tick: SCL is low in the first two samples, high in the third.
fn turn(at: usize, pull: Effect, last: Effect, ticks: bool) -> Instant
    ensures { result ≡ rows.turn at pull last ticks }
{
    if at == 0 {
        return sample(pull, false);
    }
    if at == 1 {
        return sample(Effect::Record, true);
    }
    sample(last, ticks)
}

// Step 2 for one byte: it is loaded, its eight bits are sent, who lost lets go, and the acknowledge.
fn byte(at: usize) -> Instant
    ensures { result ≡ rows.byte at }
{
    // SCL is low here, since START or the acknowledge's turn: SDA may change
    if at == 0 {
        return Instant {
            operation: Operation::Load,
            ticks: true,
            effect: Effect::Begin,
        };
    }
    if at < 25 {
        let bit = (at - 1) / 3;
        return turn(
            (at - 1) % 3,
            Effect::Release,
            Effect::Bit(bit as u8),
            bit < 7,
        );
    }
    // SCL is low here, after the eighth bit: whoever lets go of SDA makes no STOP
    if at == 25 {
        return Instant {
            operation: Operation::LetGo,
            ticks: true,
            effect: Effect::Settle,
        };
    }
    turn(at - 26, Effect::Acknowledge, Effect::Record, false)
}

// A repeated START, or the STOP of step 4: SDA is set for it, a bit turn, and SDA changes; SCL stays high in the sample
// that shows it.
fn condition(at: usize, set: Operation, change: Operation, past: Operation) -> Instant
    ensures { result ≡ rows.condition set change past at }
{
    // SCL is low here, after an acknowledge: SDA is set unseen
    if at == 0 {
        return write(set, true);
    }
    if at < 4 {
        return turn(at - 1, Effect::Release, Effect::Record, false);
    }
    // SCL is high here: SDA's fall is the repeated START, its rise the STOP
    if at == 4 {
        return write(change, false);
    }
    if at == 5 {
        return sample(Effect::Record, false);
    }
    write(past, false)
}

impl Part {
    // The instant of a part at an index.
    pub fn instant(self, at: usize) -> Instant
        ensures { result ≡ rows.instant self at }
    {
        match self {
            Part::Entry => write(Operation::Enter, false),
            Part::Opening => opening(at),
            Part::Restart => condition(at, Operation::Rise, Operation::Pull, Operation::Heed),
            Part::Byte => byte(at),
            Part::Closing => condition(at, Operation::Lower, Operation::Raise, Operation::Rest),
        }
    }

    // The index of its last instant.
    pub fn last(self) -> usize
        ensures { result ≡ rows.last self }
    {
        match self {
            Part::Entry => 0,
            Part::Opening => 3,
            Part::Restart => 6,
            Part::Byte => 28,
            Part::Closing => 6,
        }
    }
}
