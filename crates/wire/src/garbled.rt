// Bytes that are not what is read from them.
ghost use Rattle.std.specs.Prelude.{◌≡◌, ◌+◌, ◌≤◌};
ghost use Rattle.wire.specs.declared.garbled.TheConstants.{NO_EVENT};

use puts::event::Refusal;
use std::error::Error;
use std::fmt;

// The number of the refusal of bytes that are no event.
pub const NO_EVENT: u64 = 1;

// The place from which on they are not.
#[derive(Clone, Copy, Debug, PartialEq, Eq)]
pub struct Garbled {
    pub place: usize,
}

impl Garbled {
    // Where the part that was read begins `at` bytes further on.
    pub(crate) fn after(self, at: usize) -> Garbled
        requires { at + self.place ≤ usize.MAX }
        ensures { result.place ≡ at + self.place }
    {
        Garbled {
            place: at + self.place,
        }
    }
}

impl fmt::Display for Garbled {
    fn fmt<W: fmt::Write>(&self, f: &mut fmt::Formatter<W>) -> fmt::Result {
        write!(f, "garbled from byte {} on", self.place)
    }
}

impl Error for Garbled {}

impl From<Garbled> for Refusal {
    ghost from_gives = { λ g r. (r.number ≡ NO_EVENT) × (r.place ≡ g.place) };

    fn from(garbled: Garbled) -> Refusal {
        Refusal {
            number: NO_EVENT,
            place: garbled.place as u64,
        }
    }
}
