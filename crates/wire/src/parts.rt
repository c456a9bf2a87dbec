// The parts of events, each read from the beginning of its bytes.
ghost use Rattle.std.specs.Prelude.{◌≡◌, ◌≤◌, length, MatchResult};
ghost use Rattle.wire.specs.Reading.{clock_size, last, number_in, reach, read_body as body_read, read_put as put_read, span as span_of, whole};
ghost use Rattle.wire.specs.Said.{Within, body as body_of, part, put_of};

use crate::event::{ClockBytes, PutBytes};
use crate::garbled::Garbled;
use crate::mark::{END, FORM, NEXT};
use crate::number::{number, rest};

// How many bytes the counts of a clock take, a 1 before each.
#[tactic(auto, unfolding(crate::specs::Reading::span))]
pub fn span(bytes: &[u8]) -> usize
    ensures is { result ≡ span_of bytes.now }
    ensures within { result ≤ length bytes.now }
{
    9 * ClockBytes { bytes }.how_many()
}

// How many bytes a clock takes with its end, or the place where it ceases to be one.
#[tactic(auto, unfolding(crate::specs::Reading::clock_size))]
pub fn read_clock(bytes: &[u8]) -> Result<usize, Garbled>
    ensures is { part (λ n. n) result ≡ clock_size bytes.now }
    ensures within { MatchResult result (λ n. n ≤ length bytes.now) (λ g. g.place ≤ length bytes.now) }
{
    let end = span(bytes);
    match bytes.get(end) {
        Some(&END) => Ok(end + 1),
        Some(&NEXT) | None => Err(Garbled { place: bytes.len() }),
        Some(_) => Err(Garbled { place: end }),
    }
}

// The number that the bytes begin with.
pub(crate) fn read_number(bytes: &[u8]) -> Result<u64, Garbled>
    ensures is { part (λ n. n) result ≡ reach bytes.now 8 (whole (number_in bytes.now)) }
    ensures enough { MatchResult result (λ n. 8 ≤ length bytes.now) (λ g. g.place ≤ length bytes.now) }
{
    number(bytes).ok_or(Garbled { place: bytes.len() })
}

// Nothing is left over after `end` bytes.
pub(crate) fn read_end(bytes: &[u8], end: usize) -> Result<(), Garbled>
    ensures is { part (λ u. u) result ≡ last bytes.now end (whole tt) }
    ensures within { Within result bytes.now }
{
    if bytes.len() > end {
        return Err(Garbled { place: end });
    }
    Ok(())
}

// The key and the value that the bytes are.
#[tactic(auto, unfolding(crate::specs::Reading::read_body))]
pub fn read_body(bytes: &[u8]) -> Result<(u64, &[u8]), Garbled>
    ensures is { part body_of result ≡ body_read bytes.now }
    ensures within { Within result bytes.now }
{
    let [FORM, parts @ ..] = bytes else {
        return Err(Garbled { place: 0 });
    };
    let key = read_number(parts).map_err(|garbled| garbled.after(1))?;
    Ok((key, rest(parts, 8)))
}

// The put that the bytes are.
#[tactic(auto, unfolding(crate::specs::Reading::read_put))]
pub fn read_put(bytes: &[u8]) -> Result<PutBytes<'_>, Garbled>
    ensures is { part put_of result ≡ put_read bytes.now }
    ensures within { Within result bytes.now }
{
    let from = read_number(bytes)?;
    let seen = ClockBytes {
        bytes: rest(bytes, 8),
    };
    let size = read_clock(seen.bytes).map_err(|garbled| garbled.after(8))?;
    let (key, value) = read_body(rest(bytes, 8 + size)).map_err(|garbled| garbled.after(8 + size))?;
    Ok(PutBytes {
        from,
        seen,
        key,
        value,
    })
}
