// What a replica answers, as a client reads it. Puts and clocks are parts of the bytes that it was read from.
ghost use Rattle.std.specs.Iterator.{at_most};
ghost use Rattle.std.specs.Prelude.{◌≡◌};
ghost use Rattle.wire.specs.Answers.{framed, next_put as next_put_in};
ghost use Rattle.wire.specs.Said.{NextPut, bytes_left, next, put_next, steps_left};

use crate::event::{ClockBytes, PutBytes};
use crate::mark::{END, NEXT};
use crate::number::{number, rest};
use crate::parts::read_put;
use puts::event;
use std::error::Error;
use std::fmt;

// Puts one after the other, up to the end of the bytes.
#[derive(Clone, Copy)]
pub struct PutsBytes<'a> {
    pub bytes: &'a [u8],
}

impl<'a> PutsBytes<'a> {
    // The next put and those after it, or the end.
    pub fn next(self) -> Result<Option<(PutBytes<'a>, PutsBytes<'a>)>, NoPuts>
        ensures { next result ≡ next_put_in self.entry.bytes.now }
    {
        next_put(self.bytes)
    }
}

pub type Answer<'a> = event::Answer<ClockBytes<'a>, &'a [u8], PutsBytes<'a>>;

// Bytes that are no puts.
#[derive(Clone, Copy, Debug, PartialEq, Eq)]
pub struct NoPuts;

impl fmt::Display for NoPuts {
    fn fmt<W: fmt::Write>(&self, f: &mut fmt::Formatter<W>) -> fmt::Result {
        f.write_str("no puts up to an end")
    }
}

impl Error for NoPuts {}

// The puts that are still to come: none after the last, and none after an error.
#[derive(Clone, Drop)]
pub struct Puts<'a> {
    left: Option<&'a [u8]>,
}

impl<'a> Iterator for Puts<'a> {
    type Item = Result<PutBytes<'a>, NoPuts>;

    ghost next_gives = { NextPut };

    ghost remaining = { λ s. at_most (steps_left s) };

    #[tactic(auto, using(crate::proofs::Puts::next_end, crate::proofs::Puts::rest_shorter))]
    fn next(&mut self) -> Option<Result<PutBytes<'a>, NoPuts>> {
        let bytes = self.left.take()?;
        match next_put(bytes) {
            Ok(None) => None,
            Ok(Some((put, others))) => {
                self.left = Some(others.bytes);
                Some(Ok(put))
            }
            Err(e) => Some(Err(e)),
        }
    }
}

impl<'a> IntoIterator for PutsBytes<'a> {
    type Item = Result<PutBytes<'a>, NoPuts>;

    type IntoIter = Puts<'a>;

    ghost into_iter_gives = { λ puts it. bytes_left it ≡ puts.bytes.now };

    fn into_iter(self) -> Puts<'a> {
        Puts {
            left: Some(self.bytes),
        }
    }
}

// The next put and what follows it, or the end.
#[tactic(auto, unfolding(crate::specs::Answers::next_put))]
fn next_put(bytes: &[u8]) -> Result<Option<(PutBytes<'_>, PutsBytes<'_>)>, NoPuts>
    ensures { next result ≡ next_put_in bytes.now }
{
    match bytes {
        [END] => Ok(None),
        [NEXT, item @ ..] => {
            let size = number(item).ok_or(NoPuts)?;
            Ok(Some(put_of(size, rest(item, 8))?))
        }
        _ => Err(NoPuts),
    }
}

// The put of so many bytes, and those that follow.
fn put_of(size: u64, bytes: &[u8]) -> Result<(PutBytes<'_>, PutsBytes<'_>), NoPuts>
    ensures { put_next result ≡ framed size bytes.now }
{
    let (put, after) = bytes.split_at_checked(size as usize).ok_or(NoPuts)?;
    let put = read_put(put).map_err(|_| NoPuts)?;
    Ok((put, PutsBytes { bytes: after }))
}
