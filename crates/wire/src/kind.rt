// The kinds of events and of answers: the first byte of each is the number of its kind.
ghost use Rattle.std.specs.Prelude.{◌≡◌};
ghost use Rattle.wire.specs.Kinds.{answer_number, event_number, AnswerDecoded, EventDecoded};

use std::error::Error;
use std::fmt;

#[derive(Clone, Copy, Debug, PartialEq, Eq)]
pub enum EventKind {
    Put = 0,
    Get = 1,
    Came = 2,
    Has = 3,
    Tell = 4,
}

#[derive(Clone, Copy, Debug, PartialEq, Eq)]
pub enum AnswerKind {
    Refused = 0,
    Puts = 1,
    Value = 2,
    Clock = 3,
}

// A number that no kind has.
#[derive(Clone, Copy, Debug, PartialEq, Eq)]
pub struct UnknownKind(pub u8);

impl EventKind {
    pub fn number(self) -> u8
        ensures { result ≡ event_number self }
    {
        self as u8
    }
}

impl TryFrom<u8> for EventKind {
    type Error = UnknownKind;

    ghost try_from_gives = { EventDecoded };

    fn try_from(number: u8) -> Result<EventKind, UnknownKind> {
        match number {
            0 => Ok(EventKind::Put),
            1 => Ok(EventKind::Get),
            2 => Ok(EventKind::Came),
            3 => Ok(EventKind::Has),
            4 => Ok(EventKind::Tell),
            _ => Err(UnknownKind(number)),
        }
    }
}

impl AnswerKind {
    pub fn number(self) -> u8
        ensures { result ≡ answer_number self }
    {
        self as u8
    }
}

impl TryFrom<u8> for AnswerKind {
    type Error = UnknownKind;

    ghost try_from_gives = { AnswerDecoded };

    fn try_from(number: u8) -> Result<AnswerKind, UnknownKind> {
        match number {
            0 => Ok(AnswerKind::Refused),
            1 => Ok(AnswerKind::Puts),
            2 => Ok(AnswerKind::Value),
            3 => Ok(AnswerKind::Clock),
            _ => Err(UnknownKind(number)),
        }
    }
}

impl fmt::Display for UnknownKind {
    fn fmt<W: fmt::Write>(&self, f: &mut fmt::Formatter<W>) -> fmt::Result {
        write!(f, "no kind has number {}", self.0)
    }
}

impl Error for UnknownKind {}
