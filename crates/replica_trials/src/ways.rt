// How a replica is called, and what a trial reads in its answers.
use endpoint::{ANSWER_MOST, call};
use puts::event::Refusal;
use replica::{Answer, step};
use std::test::Fail;
use wire::answer::Answer as AnswerBytes;
use wire::answers::read_answer;
use wire::event::PutBytes;

const GET: [u8; 9] = [1, 0, 0, 0, 0, 0, 0, 0, 0];

pub const TELL: [u8; 1] = [4];

// Of a put: its replica, its only byte, and its number.
pub type Shown = (u64, u8, u64);

// The ways to call a replica of a cluster of two.
pub trait Calls {
    // The number and the place of a refusal; none, if the event is accepted.
    fn refusal(mem: &mut [u64], event: &[u8]) -> Result<Option<(u64, u64)>, Fail>;

    // The counts that it tells.
    fn counts(mem: &mut [u64]) -> Option<(u64, u64)>;

    // What stands at key 0.
    fn value(mem: &mut [u64]) -> Option<Shown>;

    // The puts that an event is answered with, if there is just one.
    fn only_put(mem: &mut [u64], event: &[u8]) -> Option<Shown>;
}

pub struct ByValue;

impl Calls for ByValue {
    fn refusal(mem: &mut [u64], event: &[u8]) -> Result<Option<(u64, u64)>, Fail> {
        let Err(reason) = step(mem, event) else {
            return Ok(None);
        };
        let Refusal { number, place } = reason.into();
        Ok(Some((number, place)))
    }

    fn counts(mem: &mut [u64]) -> Option<(u64, u64)> {
        match step(mem, &TELL) {
            Ok(Answer::Clock { clock }) => Some((clock.count(0), clock.count(1))),
            _ => None,
        }
    }

    fn value(mem: &mut [u64]) -> Option<Shown> {
        match step(mem, &GET) {
            Ok(Answer::Value { put: Some(put) }) => shown(&put),
            _ => None,
        }
    }

    fn only_put(mem: &mut [u64], event: &[u8]) -> Option<Shown> {
        match step(mem, event) {
            Ok(Answer::Made { put }) => shown(&put),
            Ok(Answer::Reply { to }) => match to {
                [Some(put), None, ..] => shown(&put),
                _ => None,
            },
            _ => None,
        }
    }
}

fn shown(put: &puts::Put) -> Option<Shown> {
    match put.value.as_bytes() {
        [byte] => Some((put.from, *byte, put.number())),
        _ => None,
    }
}

pub struct ByBytes;

impl Calls for ByBytes {
    fn refusal(mem: &mut [u64], event: &[u8]) -> Result<Option<(u64, u64)>, Fail> {
        let mut out = [9; ANSWER_MOST];
        match answer(mem, event, &mut out).ok_or("no answer")? {
            AnswerBytes::Refused { refusal } => Ok(Some((refusal.number, refusal.place))),
            _ => Ok(None),
        }
    }

    fn counts(mem: &mut [u64]) -> Option<(u64, u64)> {
        let mut out = [9; ANSWER_MOST];
        match answer(mem, &TELL, &mut out)? {
            AnswerBytes::Clock { clock } => {
                let counts = clock.counts(2)?;
                Some((counts[0], counts[1]))
            }
            _ => None,
        }
    }

    fn value(mem: &mut [u64]) -> Option<Shown> {
        let mut out = [9; ANSWER_MOST];
        match answer(mem, &GET, &mut out)? {
            AnswerBytes::Value { put: Some(put) } => shown_bytes(put),
            _ => None,
        }
    }

    fn only_put(mem: &mut [u64], event: &[u8]) -> Option<Shown> {
        let mut out = [9; ANSWER_MOST];
        let AnswerBytes::Puts { puts } = answer(mem, event, &mut out)? else {
            return None;
        };
        let mut puts = puts.into_iter();
        let put = puts.next()?.ok()?;
        if puts.next().is_some() {
            return None;
        }
        shown_bytes(put)
    }
}

// What a call answers, as a client reads it: in the first bytes of the slice.
fn answer<'a>(
    mem: &mut [u64],
    event: &[u8],
    out: &'a mut [u8; ANSWER_MOST],
) -> Option<AnswerBytes<'a>> {
    let len = call(mem, event, out)?;
    read_answer(&out[..len])
}

fn shown_bytes(put: PutBytes<'_>) -> Option<Shown> {
    let counts = put.seen.counts(2)?;
    let before = counts.get(put.from as usize)?;
    match put.value {
        [byte] => Some((put.from, *byte, before.wrapping_add(1))),
        _ => None,
    }
}
