// A command to events: what a play does for each line, and prints.
ghost use Rattle.stage.specs.Lines.{Unread, passed_over, unread_text};
ghost use Rattle.std.specs.Prelude.{◌≡◌, [], ◌++◌, true, OnOk, string_bytes};

use memory::Limits;
use puts::event::Refusal;
use script::{Command, Deed, read_command};
use std::alloc::Global;
use std::error::Error;
use std::fmt::Write;
use std::str::from_utf8;
use std::{fmt, io};
use text::event::{Answer, Event};
use text::print::{AnswerText, EventText};

// What cannot be played is refused so.
pub const REFUSED: Answer = Answer::Refused {
    refusal: Refusal {
        number: 2,
        place: 0,
    },
};

// Why a cluster is not opened.
#[derive(Debug, Drop)]
pub enum OpenError {
    OutOfRange,
    Io(io::Error),
}

impl fmt::Display for OpenError {
    fn fmt<W: fmt::Write>(&self, f: &mut fmt::Formatter<W>) -> fmt::Result {
        match self {
            OpenError::OutOfRange => write!(f, "a limit is out of range"),
            OpenError::Io(e) => write!(f, "{e}"),
        }
    }
}

impl Error for OpenError {}

impl From<io::Error> for OpenError {
    ghost use Rattle.stage.specs.declared.play.OpenError.TheVariants.{Io};

    ghost from_gives = { λ error e. e ≡ Io error };

    fn from(error: io::Error) -> OpenError {
        OpenError::Io(error)
    }
}

// The replicas that are played.
pub trait Cluster {
    // None are open at first.
    fn none(heap: Global) -> io::Result<Self>;

    // How many are open.
    fn replicas(&self) -> u64;

    // Opens all anew. What is open stays, where a limit is out of range.
    fn open(&mut self, limits: Limits) -> Result<(), OpenError>;

    // An event at a replica.
    fn event(&mut self, replica: u64, event: &Event) -> io::Result<Answer>;

    // Bytes that come to a replica as an event.
    fn bytes(&mut self, replica: u64, bytes: &[u8]) -> io::Result<Answer>;

    // The event by which a put comes: put number `number` of replica `maker`, if it was made.
    fn made(&self, maker: u64, number: u64) -> io::Result<Option<Event>>;
}

// A cluster that is played, and what is to be printed.
#[derive(Drop)]
pub struct Play<C> {
    heap: Global,
    cluster: C,
    pub out: String,
}

impl<C: Cluster> Play<C> {
    // Nothing is printed at first.
    pub fn new(heap: Global, cluster: C) -> Play<C>
        ensures { string_bytes result.out ≡ [] }
    {
        Play {
            heap,
            cluster,
            out: String::new(heap),
        }
    }

    // Plays the line with this number, from 0.
    pub fn line(&mut self, number: u64, line: &[u8]) -> io::Result<()>
        ensures passed { passed_over line.now ≡ true → string_bytes self.new.out ≡ string_bytes self.old.out }
        ensures unread { OnOk result (Unread line.now → string_bytes self.new.out ≡ string_bytes self.old.out ++ unread_text number) }
    {
        if let [] | [b'#', ..] = line {
            return Ok(());
        }
        if let Ok(text) = from_utf8(line) {
            if let Some(command) = read_command(self.heap, text)? {
                return self.command(text, command);
            }
        }
        writeln!(self.out, "line {number} -> refused 1 {number}")?;
        Ok(())
    }

    fn command(&mut self, text: &str, command: Command) -> io::Result<()> {
        match command {
            Command::Open { limits } => self.open(text, limits),
            Command::At { replica, deed } => self.deed(text, replica, deed),
            Command::Round => self.round(),
        }
    }

    fn open(&mut self, text: &str, limits: Limits) -> io::Result<()> {
        match self.cluster.open(limits) {
            Ok(()) => writeln!(self.out, "{text} -> opened")?,
            Err(OpenError::OutOfRange) => self.outcome(text, &REFUSED)?,
            Err(OpenError::Io(e)) => return Err(e),
        }
        Ok(())
    }

    fn deed(&mut self, text: &str, replica: u64, deed: Deed) -> io::Result<()> {
        match deed {
            Deed::Event { event } => {
                let answer = self.cluster.event(replica, &event)?;
                self.outcome(text, &answer)
            }
            Deed::Bytes { bytes } => {
                let answer = self.cluster.bytes(replica, bytes.as_slice())?;
                self.outcome(text, &answer)
            }
            Deed::From { maker, number } => match self.cluster.made(maker, number)? {
                Some(came) => {
                    self.event(replica, &came)?;
                    Ok(())
                }
                None => self.outcome(text, &REFUSED),
            },
            Deed::Asks { asked } => {
                let replicas = self.cluster.replicas();
                if replica < replicas && asked < replicas && replica != asked {
                    return self.ask(replica, asked);
                }
                self.outcome(text, &REFUSED)
            }
        }
    }

    fn outcome(&mut self, text: &str, answer: &Answer) -> io::Result<()> {
        writeln!(self.out, "{text} -> {}", AnswerText(answer))?;
        Ok(())
    }

    // An event happens at a replica.
    fn event(&mut self, replica: u64, event: &Event) -> io::Result<Answer> {
        let answer = self.cluster.event(replica, event)?;
        let text = EventText { replica, event };
        writeln!(self.out, "{text} -> {}", AnswerText(&answer))?;
        Ok(answer)
    }

    // One exchange: the asker tells its clock, the asked hears it, and what it answers comes to the asker.
    fn ask(&mut self, asker: u64, asked: u64) -> io::Result<()> {
        let Answer::Clock { clock } = self.event(asker, &Event::Tell)? else {
            return Ok(());
        };
        let has = Event::Has {
            replica: asker,
            clock,
        };
        let Answer::Puts { puts } = self.event(asked, &has)? else {
            return Ok(());
        };
        for put in puts {
            self.event(asker, &Event::Came { put })?;
        }
        Ok(())
    }

    // Each replica asks each other one.
    fn round(&mut self) -> io::Result<()> {
        for asker in 0..self.cluster.replicas() {
            self.ask_all(asker)?;
        }
        Ok(())
    }

    fn ask_all(&mut self, asker: u64) -> io::Result<()> {
        for asked in 0..self.cluster.replicas() {
            if asked != asker {
                self.ask(asker, asked)?;
            }
        }
        Ok(())
    }
}
