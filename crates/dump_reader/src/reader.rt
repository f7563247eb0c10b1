// The reader: where in the dump's grammar it is, and what it knows.
ghost use Rattle.std.specs.Prelude.{◌≡◌};
ghost use Rattle.dump_reader.specs.Reader.{started, with_part, refused_by, with_wave};

use crate::words::Word;

// What may stand next.
#[derive(Clone, Copy)]
pub(crate) enum Part {
    // a command of the definitions
    Definitions,
    // any word up to `$end`: a date, a version or a comment
    Note,
    // the number of a timescale
    Number,
    // its unit; the number is this power of ten
    Unit(u8),
    // `$end`, and then a command of the definitions
    Close,
    ScopeType,
    ScopeName,
    WireType,
    WireSize,
    Identifier,
    // the first word of a wire's name
    Name,
    // another one, or `$end`
    Names,
    // `$end` after `$enddefinitions`
    Opening,
    // a stamp, a value or a command
    Values,
    // a value, or the `$end` of the section
    Section,
    // any word up to `$end`: a comment among the values
    Comment,
    // nothing more: a word is refused with this number
    Refused(u8),
}

// What the stamps and values say so far: the last stamp, if any; which wires have a value, and the values, both as
// level bytes; and the level of the sample before, NO_SAMPLE if there is none.
#[derive(Clone, Copy)]
pub(crate) struct Wave {
    pub(crate) stamped: bool,
    pub(crate) stamp: u32,
    pub(crate) known: u8,
    pub(crate) level: u8,
    pub(crate) shown: u8,
}

// No level is this number.
pub(crate) const NO_SAMPLE: u8 = 4;

#[derive(Clone, Copy)]
pub(crate) struct Reader {
    pub(crate) part: Part,
    // where the word that was judged last begins
    pub(crate) place: usize,
    // in femtoseconds
    pub(crate) timescale: u64,
    // how many are declared, and their identifiers
    pub(crate) wires: u8,
    pub(crate) scl: Word,
    pub(crate) sda: Word,
    pub(crate) wave: Wave,
}

impl Reader {
    // Before the first word.
    pub(crate) fn start() -> Reader
        ensures { result ≡ started }
    {
        Reader {
            part: Part::Definitions,
            place: 0,
            timescale: 0,
            wires: 0,
            scl: Word { start: 0, end: 0 },
            sda: Word { start: 0, end: 0 },
            wave: Wave {
                stamped: false,
                stamp: 0,
                known: 0,
                level: 0,
                shown: NO_SAMPLE,
            },
        }
    }

    pub(crate) fn moved(self, part: Part) -> Reader
        ensures { result ≡ with_part part self }
    {
        let scl = self.scl;
        let sda = self.sda;
        let wave = self.wave;
        Reader {
            part,
            place: self.place,
            timescale: self.timescale,
            wires: self.wires,
            scl,
            sda,
            wave,
        }
    }

    pub(crate) fn refused(self, number: u8) -> Reader
        ensures { result ≡ refused_by number self }
    {
        self.moved(Part::Refused(number))
    }

    pub(crate) fn waved(mut self, wave: Wave) -> Reader
        ensures { result ≡ with_wave wave self }
    {
        self.wave = wave;
        self
    }
}
