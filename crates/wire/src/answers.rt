// Answers from their bytes.
ghost use Rattle.wire.specs.Answers.{clock_answer, puts_in, read_answer, refused_answer, value_answer};
ghost use Rattle.wire.specs.Reading.{clock_size};
ghost use Rattle.wire.specs.Said.{answer as answer_of};
ghost use Rattle.wire.specs.Theorems.{AnswerRight};
ghost use Rattle.std.specs.Prelude.{◌≡◌};

use crate::answer::{Answer, PutsBytes};
use crate::event::{ClockBytes, Refusal};
use crate::kind::AnswerKind;
use crate::number::{number, rest};
use crate::parts::{read_clock, read_end};

fn refused(bytes: &[u8]) -> Option<Answer<'_>>
    ensures { answer_of result ≡ refused_answer bytes.now }
{
    if bytes.len() != 16 {
        return None;
    }
    let refusal = Refusal {
        number: number(bytes)?,
        place: number(rest(bytes, 8))?,
    };
    Some(Answer::Refused { refusal })
}

// None or one.
#[tactic(auto, using(crate::proofs::Puts::value_none, crate::proofs::Puts::value_no, crate::proofs::Puts::value_one, crate::proofs::Puts::value_broken, crate::proofs::Puts::value_two))]
fn value(puts: PutsBytes<'_>) -> Option<Answer<'_>>
    ensures { answer_of result ≡ value_answer (puts_in puts.entry.bytes.now) }
{
    let mut puts = puts.into_iter();
    let Some(put) = puts.next() else {
        return Some(Answer::Value { put: None });
    };
    let put = put.ok()?;
    match puts.next() {
        None => Some(Answer::Value { put: Some(put) }),
        Some(_) => None,
    }
}

fn clock(bytes: &[u8]) -> Option<Answer<'_>>
    ensures { answer_of result ≡ clock_answer bytes.now (clock_size bytes.now) }
{
    let size = read_clock(bytes).ok()?;
    read_end(bytes, size).ok()?;
    Some(Answer::Clock {
        clock: ClockBytes { bytes },
    })
}

// The answer that the bytes are, or none. The puts of an answer are read one after the other, in a loop over them.
#[tactic(auto, using(crate::proofs::Numbers::bytes_each, crate::proofs::Exact::answer_right))]
pub fn read_answer(bytes: &[u8]) -> Option<Answer<'_>>
    ensures is { answer_of result ≡ read_answer bytes.now }
    ensures right { AnswerRight bytes.now (answer_of result) }
{
    by_kind(bytes)
}

#[tactic(auto, unfolding(crate::specs::Answers::read_answer))]
fn by_kind(bytes: &[u8]) -> Option<Answer<'_>>
    ensures { answer_of result ≡ read_answer bytes.now }
{
    let (number, parts) = bytes.split_first()?;
    match AnswerKind::try_from(*number).ok()? {
        AnswerKind::Refused => refused(parts),
        AnswerKind::Puts => Some(Answer::Puts {
            puts: PutsBytes { bytes: parts },
        }),
        AnswerKind::Value => value(PutsBytes { bytes: parts }),
        AnswerKind::Clock => clock(parts),
    }
}
