// rig session: commands to one USI module, each answered by one line at once.
mod command; // command.rt: the commands of a session
mod reply; // reply.rt: what a command is answered

use crate::lines::say_numbers;
use crate::reading::{Progress, after};
use crate::trouble;
use crate::trouble::Fault;
use reply::{Answer, Reply};
use rig_lines::console::{PAGE, flush};
use rig_lines::files::Reader;
use rig_lines::following::{Follower, follow};
use rig_lines::input;
use rig_lines::input::{ROOM, Source, Taken};
use std::rt::Env;
use text::first_word;
use usi::Usi;

#[derive(Clone, Copy)]
struct Session {
    device: Usi,
    source: Source,
    // how many commands, how many of them were not understood, and how many refused
    commands: u64,
    faults: u64,
    refusals: u64,
    // where the first of each stands, and the first refusal's number
    first_fault: u64,
    first_refusal: u64,
    number: u8,
    more: bool,
}

impl Session {
    fn new(source: Source) -> Session {
        Session {
            device: Usi::power_up(0, 0),
            source,
            commands: 0,
            faults: 0,
            refusals: 0,
            first_fault: 0,
            first_refusal: 0,
            number: 0,
            more: true,
        }
    }

    fn with_fault(mut self) -> Session {
        if self.faults == 0 {
            self.first_fault = self.source.line;
        }
        self.faults = self.faults.saturating_add(1);
        self
    }

    fn with_refusal(mut self, number: u8) -> Session {
        if self.refusals == 0 {
            self.first_refusal = self.source.line;
            self.number = number;
        }
        self.refusals = self.refusals.saturating_add(1);
        self
    }

    // Where the next line is taken from, while there is more.
    fn next(self) -> Option<Source> {
        self.more.then_some(self.source)
    }

    // A line was taken, perhaps one that is no text.
    fn with_progress(mut self, progress: Progress) -> Session {
        self.source = progress.source;
        self.more = progress.more | progress.fault().is_some_and(|fault| fault.is_of_line());
        self
    }

    // What a reply leaves behind.
    fn after(mut self, reply: Reply) -> Session {
        self.device = reply.device;
        if matches!(reply.answer, Answer::Nothing) {
            return self;
        }
        self.commands = self.commands.saturating_add(1);
        match reply.answer {
            Answer::Error(_) => self.with_fault(),
            Answer::Refused(number) => self.with_refusal(number),
            _ => self,
        }
    }

    // Replies to a line at once.
    fn replied(self, page: &mut [u8; PAGE], fault: Option<Fault>, words: &[u8]) -> Session {
        if !self.more {
            return self;
        }
        let reply = reply::to(self.device, fault, words);
        let end = reply.put(page, first_word(words));
        flush(page, end);
        self.after(reply)
    }

    // Replies to the line that was taken.
    fn followed(self, page: &mut [u8; PAGE], taken: Taken, line: &[u8]) -> Session {
        let progress = after(taken);
        let words = input::content(line, progress.length);
        self.with_progress(progress)
            .replied(page, progress.fault(), words)
    }

    // The last line counts commands that were not understood, else those that were refused, else all.
    fn summary<E: Env>(self, env: &E, page: &mut [u8; PAGE]) -> usize {
        if self.source.errno != 0 {
            return trouble::unread(env, page, self.source);
        }
        if self.faults > 0 {
            let words = b"error # of # commands not understood, the first on line #";
            return say_numbers(
                page,
                0,
                words,
                &[self.faults, self.commands, self.first_fault],
            );
        }
        if self.refusals > 0 {
            let words = b"refused #: # of # commands refused, the first on line #";
            let number = self.number as u64;
            let counts = [number, self.refusals, self.commands, self.first_refusal];
            return say_numbers(page, 0, words, &counts);
        }
        say_numbers(page, 0, b"ok # command~", &[self.commands])
    }
}

// The page that the replies of a session are put on.
#[derive(Drop)]
struct Replies<'a> {
    page: &'a mut [u8; PAGE],
}

impl Follower<Session> for Replies<'_> {
    ghost says = { λ state from. Unit {0} };

    ghost step = { λ before state taken line result after. Unit {0} };

    fn next(&self, session: Session) -> Option<Source> {
        session.next()
    }

    fn after(&mut self, session: Session, taken: Taken, line: &[u8]) -> Session {
        session.followed(self.page, taken, line)
    }
}

pub(crate) fn run<E: Env>(
    env: &E,
    reader: &mut Reader,
    page: &mut [u8; PAGE],
    source: Source,
) -> usize {
    let mut piece = [0u8; PAGE];
    let mut line = [0u8; ROOM];
    let mut replies = Replies { page };
    let begun = Session::new(source);
    let session = follow(reader, &mut piece, &mut line, begun, &mut replies);
    session.summary(env, replies.page)
}
