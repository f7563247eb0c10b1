// The commands of a script: a name, and numbers in hexadecimal.
use check::same;

#[derive(Clone, Copy)]
pub enum Command {
    Power(u8, u8),
    Write(u16, u8),
    WriteWord(u16, u16),
    Sample(u8),
    Tick,
    Read(u16),
    ReadWord(u16),
    Unknown,
}

const BYTE: u64 = 0xff;

const WORD: u64 = 0xffff;

// The number that a word says, and one above every limit where it says none.
fn number(word: &[u8]) -> u64 {
    text::hex(word).unwrap_or(u64::MAX)
}

fn power(low: u64, high: u64) -> Command {
    if low <= BYTE {
        if high <= BYTE {
            return Command::Power(low as u8, high as u8);
        }
    }
    Command::Unknown
}

fn write(address: u64, value: u64) -> Command {
    if address <= WORD {
        if value <= BYTE {
            return Command::Write(address as u16, value as u8);
        }
    }
    Command::Unknown
}

fn write_word(address: u64, value: u64) -> Command {
    if address <= WORD {
        if value <= WORD {
            return Command::WriteWord(address as u16, value as u16);
        }
    }
    Command::Unknown
}

fn sample(level: u64) -> Command {
    if level <= BYTE {
        return Command::Sample(level as u8);
    }
    Command::Unknown
}

fn read(address: u64) -> Command {
    if address <= WORD {
        return Command::Read(address as u16);
    }
    Command::Unknown
}

fn read_word(address: u64) -> Command {
    if address <= WORD {
        return Command::ReadWord(address as u16);
    }
    Command::Unknown
}

pub fn parse(line: &[u8]) -> Command {
    let name = text::first_word(line);
    let arguments = text::after_word(line);
    let first = number(text::first_word(arguments));
    let second = number(text::first_word(text::after_word(arguments)));
    if same(name, b"power") {
        return power(first, second);
    }
    if same(name, b"write") {
        return write(first, second);
    }
    if same(name, b"writew") {
        return write_word(first, second);
    }
    if same(name, b"sample") {
        return sample(first);
    }
    if same(name, b"tick") {
        return Command::Tick;
    }
    if same(name, b"read") {
        return read(first);
    }
    if same(name, b"readw") {
        return read_word(first);
    }
    Command::Unknown
}
