// Answers, each written into a lent slice: none if there is no room, and then it is as before; else how many bytes.
ghost use Rattle.std.specs.Prelude.{◌≡◌, ◌+◌, ◌≤◌, [], ◌∷◌, map, length};
ghost use Rattle.model.specs.Replica.{clock_is, puts as puts_of, refused, value as value_of};
ghost use Rattle.wire.specs.Bytes.{write_answer as answer_written, write_item, write_puts as puts_written};
ghost use Rattle.wire.specs.Kinds.{answer_number};
ghost use Rattle.wire_out.specs.Said.{answer as answer_of, none_or_one, put_of};
ghost use Rattle.wire_out.specs.Written.{Appended, Written, Wrote, capped};

use crate::answer::{Answer, Put};
use crate::lengths::{clock_len, item_len, puts_len, value_len};
use crate::writer::Writer;
use wire::event::Refusal;
use wire::kind::AnswerKind;
use wire::mark::END;

// How many bytes an answer takes; the largest number, if it takes more.
pub fn answer_len(answer: Answer<'_>) -> usize
    ensures { result ≡ capped (length (answer_written (answer_of answer.entry))) }
{
    match answer {
        Answer::Refused { .. } => 17,
        Answer::Puts { puts } => puts_len(puts).saturating_add(1),
        Answer::Value { put } => value_len(put),
        Answer::Clock { clock } => clock_len(clock).saturating_add(1),
    }
}

pub fn write_answer(out: &mut [u8], answer: Answer<'_>) -> Option<usize>
    ensures { Written result out.old out.new (answer_written (answer_of answer.entry)) }
{
    match answer {
        Answer::Refused { refusal } => write_refused(out, refusal),
        Answer::Puts { puts } => write_puts(out, puts),
        Answer::Value { put } => write_value(out, put),
        Answer::Clock { clock } => write_clock(out, clock),
    }
}

pub fn write_refused(out: &mut [u8], refusal: Refusal) -> Option<usize>
    ensures { Written result out.old out.new (answer_written (refused refusal.number refusal.place)) }
{
    let mut to = Writer { out, at: 0 };
    to.room(17)?;
    to.byte(AnswerKind::Refused.number());
    to.number(refusal.number);
    to.number(refusal.place);
    Some(to.at)
}

// Puts as an answer of a kind.
fn write_all(out: &mut [u8], kind: AnswerKind, puts: &[Put<'_>]) -> Option<usize>
    ensures { Written result out.old out.new (answer_number kind ∷ puts_written (map put_of puts.now)) }
{
    let mut to = Writer { out, at: 0 };
    to.room(puts_len(puts).saturating_add(1))?;
    to.byte(kind.number());
    to.puts(puts);
    Some(to.at)
}

pub fn write_puts(out: &mut [u8], puts: &[Put<'_>]) -> Option<usize>
    ensures { Written result out.old out.new (answer_written (puts_of (map put_of puts.now))) }
{
    write_all(out, AnswerKind::Puts, puts)
}

// What stands at a key: none or one.
pub fn write_value(out: &mut [u8], put: Option<Put<'_>>) -> Option<usize>
    ensures { Written result out.old out.new (answer_written (value_of (none_or_one put.entry))) }
{
    write_all(out, AnswerKind::Value, put.as_slice())
}

pub fn write_none(out: &mut [u8]) -> Option<usize>
    ensures { Written result out.old out.new (answer_written (value_of [])) }
{
    let mut to = Writer { out, at: 0 };
    to.room(2)?;
    to.bytes(&[AnswerKind::Value.number(), END]);
    Some(to.at)
}

pub fn write_one(out: &mut [u8], put: Put<'_>) -> Option<usize>
    ensures { Written result out.old out.new (answer_written (value_of (put_of put.entry ∷ []))) }
{
    write_value(out, Some(put))
}

pub fn write_clock(out: &mut [u8], clock: &[u64]) -> Option<usize>
    ensures { Written result out.old out.new (answer_written (clock_is clock.now)) }
{
    let mut to = Writer { out, at: 0 };
    to.room(clock_len(clock).saturating_add(1))?;
    to.byte(AnswerKind::Clock.number());
    to.clock(clock);
    Some(to.at)
}

// PUTS ONE AFTER THE OTHER: each call gives the place where the next begins; none if there is no room, and then the slice is as before.
pub fn begin_puts(out: &mut [u8]) -> Option<usize>
    ensures { Appended result 0 out.old out.new (1 ∷ []) }
{
    let mut to = Writer { out, at: 0 };
    to.room(1)?;
    to.byte(AnswerKind::Puts.number());
    Some(to.at)
}

pub fn add_put(out: &mut [u8], at: usize, put: Put<'_>) -> Option<usize>
    ensures { Appended result at out.old out.new (write_item (put_of put.entry)) }
{
    let mut to = Writer { out, at };
    to.room(item_len(put))?;
    to.item(put);
    Some(to.at)
}

pub fn end_puts(out: &mut [u8], at: usize) -> Option<usize>
    ensures { Appended result at out.old out.new (0 ∷ []) }
{
    let mut to = Writer { out, at };
    to.room(1)?;
    to.end();
    Some(to.at)
}

// A put among others, where there is room.
pub fn put_item(out: &mut [u8], at: usize, put: Put<'_>) -> usize
    requires { at + length (write_item (put_of put)) ≤ length out.old }
    ensures { Wrote result at out.old out.new (write_item (put_of put.entry)) }
{
    let mut to = Writer { out, at };
    to.item(put);
    to.at
}
