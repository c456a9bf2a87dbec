// The counts of a clock, one after the other and by value.
ghost use Rattle.std.specs.Iterator.{YieldsFirst, item_count};
ghost use Rattle.std.specs.Prelude.{◌≡◌, ◌*◌, ◌≤◌, length};
ghost use Rattle.wire.specs.Reading.{clock_in};
ghost use Rattle.wire.specs.Said.{counts_left, Counted};

use crate::event::ClockBytes;
use crate::mark::NEXT;
use crate::number::{number, rest};

// A clock has at most so many counts.
pub const COUNTS_MOST: usize = 16;

// The counts that are still to come.
#[derive(Drop)]
pub struct Counts<'a> {
    bytes: &'a [u8],
}

impl Iterator for Counts<'_> {
    type Item = u64;

    ghost next_gives = { YieldsFirst counts_left };

    ghost remaining = { item_count counts_left };

    #[tactic(auto, using(crate::proofs::Entries::clock_next, crate::proofs::Clocks::clock_short, crate::proofs::Clocks::clock_other))]
    fn next(&mut self) -> Option<u64> {
        let (marker, count) = self.bytes.split_first()?;
        if *marker != NEXT {
            return None;
        }
        let n = number(count)?;
        self.bytes = rest(count, 8);
        Some(n)
    }
}

impl<'a> IntoIterator for ClockBytes<'a> {
    type Item = u64;

    type IntoIter = Counts<'a>;

    ghost into_iter_gives = { λ clock it. counts_left it ≡ clock_in clock.bytes.now };

    fn into_iter(self) -> Counts<'a> {
        Counts { bytes: self.bytes }
    }
}

impl ClockBytes<'_> {
    #[tactic(auto, using(crate::proofs::Clocks::clock_within))]
    pub fn how_many(self) -> usize
        ensures is { result ≡ length (clock_in self.entry.bytes.now) }
        ensures within { 9 * result ≤ length self.entry.bytes.now }
    {
        self.into_iter().count()
    }

    // The counts and zeros after them, if there are `many`; none if there are more or less, or more than fit.
    pub fn counts(self, many: usize) -> Option<[u64; COUNTS_MOST]>
        ensures { Counted result many (clock_in self.entry.bytes.now) }
    {
        if many > COUNTS_MOST {
            return None;
        }
        let mut counts = [0; COUNTS_MOST];
        let mut found = 0;
        for n in self {
            if found == many {
                return None;
            }
            counts[found] = n;
            found += 1;
        }
        (found == many).then_some(counts)
    }
}
