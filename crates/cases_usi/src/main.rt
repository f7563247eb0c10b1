// Runs a script of commands on one USI module, and prints what each command leaves or reads.
#![tactic(auto)]

mod command;
mod show;

use command::Command;
use usi::Usi;

const STDIN: i32 = 0;

// Runs one command and answers the module after it.
fn run_command(command: Command, device: Usi) -> Usi {
    match command {
        Command::Power(low, high) => show::step(Ok(Usi::power_up(low, high))),
        Command::Write(address, value) => show::written(device.write(address, value)),
        Command::WriteWord(address, value) => show::written(device.write_word(address, value)),
        Command::Sample(level) => show::step(device.sample(level)),
        Command::Tick => show::step(device.tick()),
        Command::Read(address) => {
            show::byte(device.read(address));
            device
        }
        Command::ReadWord(address) => {
            show::word(device.read_word(address));
            device
        }
        Command::Unknown => {
            show::line(b"unknown command");
            device
        }
    }
}

fn is_comment(line: &[u8]) -> bool {
    if line.len() == 0 {
        return false;
    }
    line[0] == b'#'
}

// A comment is copied to the output.
fn run_line(line: &[u8], device: Usi) -> Usi {
    if is_comment(line) {
        show::line(line);
        return device;
    }
    run_command(command::parse(line), device)
}

fn run(script: &[u8]) {
    let mut device = Usi::power_up(0, 0);
    let mut rest = script;
    while rest.len() > 0 {
        device = run_line(text::first_line(rest), device);
        let next = text::after_line(rest);
        rest = next;
    }
}

fn main() {
    let mut script = io::large_buffer();
    let n = io::read_full(STDIN, &mut script);
    if n == script.len() {
        show::line(b"the script is too long");
        return;
    }
    run(&script[..n]);
}
