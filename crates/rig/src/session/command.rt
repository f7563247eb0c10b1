// The commands of a session: a name, and numbers in hexadecimal.
use rig_lines::lists::line_of;
use text::{after_word, first_word};
use usi::Usi;

#[derive(Clone, Copy)]
pub(crate) enum Command {
    // no word
    Nothing,
    Help,
    Power(u8, u8),
    Read(u16),
    Write(u16, u8),
    ReadWord(u16),
    WriteWord(u16, u16),
    Sample(u8),
    Tick,
    Lines,
}

// The registers in the order of their addresses.
const REGISTERS: &[u8] = b"USICTL0\nUSICTL1\nUSICKCTL\nUSICNT\nUSISRL\nUSISRH\n";

// The number that a word says.
fn number(word: &[u8]) -> Option<u64> {
    text::hex(word).ok()
}

fn byte(word: &[u8]) -> Option<u8> {
    u8::try_from(number(word)?).ok()
}

// The number of a word of memory, as an address is.
fn wide(word: &[u8]) -> Option<u16> {
    u16::try_from(number(word)?).ok()
}

// The place of the register that a word names, in either case.
fn register(word: &[u8]) -> Option<u16> {
    (0..6).find(|place| word.eq_ignore_ascii_case(line_of(REGISTERS, *place as usize)))
}

// A register's address, by its name or as a number.
fn address(word: &[u8]) -> Option<u16> {
    match register(word) {
        Some(place) => Usi::USICTL0.checked_add(place),
        None => wide(word),
    }
}

// The first of some words, where it stands alone.
fn only(words: &[u8]) -> Option<&[u8]> {
    if first_word(after_word(words)).is_empty() {
        return Some(first_word(words));
    }
    None
}

fn power(rest: &[u8]) -> Option<Command> {
    if first_word(rest).is_empty() {
        return Some(Command::Power(0, 0));
    }
    let low = byte(first_word(rest))?;
    let high = byte(only(after_word(rest))?)?;
    Some(Command::Power(low, high))
}

fn read(rest: &[u8]) -> Option<Command> {
    Some(Command::Read(address(only(rest)?)?))
}

fn read_word(rest: &[u8]) -> Option<Command> {
    Some(Command::ReadWord(address(only(rest)?)?))
}

fn write(rest: &[u8]) -> Option<Command> {
    let value = byte(only(after_word(rest))?)?;
    Some(Command::Write(address(first_word(rest))?, value))
}

fn write_word(rest: &[u8]) -> Option<Command> {
    let value = wide(only(after_word(rest))?)?;
    Some(Command::WriteWord(address(first_word(rest))?, value))
}

fn sample(rest: &[u8]) -> Option<Command> {
    Some(Command::Sample(byte(only(rest)?)?))
}

// A command without numbers.
fn alone(rest: &[u8], command: Command) -> Option<Command> {
    first_word(rest).is_empty().then_some(command)
}

// The command that a line says, or what is said of one that is not understood.
pub(crate) fn parse(line: &[u8]) -> Result<Command, &'static [u8]> {
    let rest = after_word(line);
    match first_word(line) {
        b"" => Ok(Command::Nothing),
        b"power" => power(rest).ok_or(b"error expected power or power LL HH"),
        b"read" => read(rest).ok_or(b"error expected read AAA"),
        b"write" => write(rest).ok_or(b"error expected write AAA VV"),
        b"readw" => read_word(rest).ok_or(b"error expected readw AAA"),
        b"writew" => write_word(rest).ok_or(b"error expected writew AAA VVVV"),
        b"sample" => sample(rest).ok_or(b"error expected sample L"),
        b"tick" => alone(rest, Command::Tick).ok_or(b"error expected tick"),
        b"lines" => alone(rest, Command::Lines).ok_or(b"error expected lines"),
        b"help" => alone(rest, Command::Help).ok_or(b"error expected help"),
        _ => Err(b"error unknown command $; try help"),
    }
}
