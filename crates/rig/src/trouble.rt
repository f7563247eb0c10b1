// Last lines about what was not understood or could not be read.
use crate::hints;
use crate::hints::Hint;
use crate::lines::{put, put_numbers};
use rig_lines::console::PAGE;
use rig_lines::files::{put_name, put_reason};
use rig_lines::input::Source;
use std::rt::Env;
use text::{put_byte, put_bytes};

// What is wrong with a line of the file, or that none can be read.
#[derive(Clone, Copy)]
pub(crate) enum Fault {
    Failed,
    TooLong,
    NoText,
    NoSample,
    LargeStamp,
    LargeLevel,
    ManySamples,
    NoEvent,
    WrongDirection,
    ManyEvents,
    NoStart,
    WrongStart,
    NoGap,
    WrongGap,
}

impl Fault {
    // What is said of the line; `$` stands for the word that was met.
    fn words(self) -> &'static [u8] {
        match self {
            Fault::Failed => b"it cannot be read",
            Fault::TooLong => b"longer than 4096 bytes",
            Fault::NoText => b"a byte that is no text",
            Fault::NoSample => b"expected STAMP LEVEL, two decimal numbers, not $",
            Fault::LargeStamp => b"the stamp is above 4294967295: $",
            Fault::LargeLevel => b"the level is above 255: $",
            Fault::ManySamples => b"more than 65536 samples",
            Fault::NoEvent => NO_EVENT,
            Fault::WrongDirection => b"an even address byte is a write, an odd one a read: $",
            Fault::ManyEvents => b"more than 4096 events",
            Fault::NoStart => b"expected start N, from 0 to 4294967295",
            Fault::WrongStart => b"expected start N, from 0 to 4294967295, not $",
            Fault::NoGap => b"expected gap N",
            Fault::WrongGap => b"expected gap N, not $",
        }
    }

    // A line was there, though it is no text that is taken: a session goes on after it.
    pub(crate) fn is_of_line(self) -> bool {
        matches!(self, Fault::TooLong | Fault::NoText)
    }

    // The fault, about a word that stands so many bytes before the end of the line.
    pub(crate) fn at(self, left: usize) -> Wrong {
        Wrong { fault: self, left }
    }
}

const NO_EVENT: &[u8] =
    b"expected START, repeated START, STOP, cut byte, HH ACK, HH NACK or event numbers, not $";

// A fault, and where the word stands that it is about, in bytes before the end of the line.
#[derive(Clone, Copy)]
pub(crate) struct Wrong {
    pub(crate) fault: Fault,
    pub(crate) left: usize,
}

// A file that cannot be opened or read.
pub(crate) fn file<E: Env>(
    env: &E,
    page: &mut [u8; PAGE],
    words: &[u8],
    argument: usize,
    errno: u64,
) -> usize {
    let error = put_bytes(page, 0, words);
    let named = put_name(env, page, error, argument);
    let why = put_bytes(page, named, b": ");
    let reason = put_reason(page, why, errno);
    put_byte(page, reason, b'\n')
}

// The fault of the line read last, with the word that it is about, and a hint.
pub(crate) fn put_fault<E: Env>(
    env: &E,
    page: &mut [u8; PAGE],
    source: Source,
    fault: Fault,
    word: &[u8],
    hint: Option<Hint>,
) -> usize {
    if matches!(fault, Fault::Failed) {
        return unread(env, page, source);
    }
    let error = put_numbers(page, 0, b"error line #: ", &[source.line]);
    let met = put(page, error, fault.words(), &[], word);
    hints::end(page, met, hint)
}

// Reading has failed.
pub(crate) fn unread<E: Env>(env: &E, page: &mut [u8; PAGE], source: Source) -> usize {
    let words = b"error cannot read ";
    file(env, page, words, source.argument, source.errno)
}
