// What a replica answers, written as bytes into a lent slice that can hold every answer.
#![tactic(auto)]

ghost use Rattle.std.specs.Option.{option_copied};
ghost use Rattle.std.specs.Prelude.{◌≡◌, ◌≤◌, true, ◌∷◌, take, length, Ok};
ghost use Rattle.logs.specs.State.{SeenValid};
ghost use Rattle.model.specs.Clock.{Clock as ModelClock};
ghost use Rattle.model.specs.Delivery.{reply as reply_of};
ghost use Rattle.model.specs.Limits.{Limits as ModelLimits};
ghost use Rattle.model.specs.Program.{readable};
ghost use Rattle.model.specs.Replica.{Event as ModelEvent, Replica as ModelReplica, answer as answer_of, clock_is, in_range, puts as puts_of, refused};
ghost use Rattle.puts.specs.Values.{code_clock};
ghost use Rattle.calls.specs.Answered.{code_answer, none_or_one, one_put};
ghost use Rattle.replies.specs.Written.{Writes, answer_most, item_most};
ghost use Rattle.wire.specs.Bytes.{write_answer, write_item, write_puts};
ghost use Rattle.wire.specs.Kinds.{answer_number};
ghost use Rattle.wire_out.specs.Said.{put_of};

use calls::{Answer, Reason};
use logs::{REPLY_MOST, View};
use puts::event::Refusal;
use puts::{Clock, Put};
use wire::kind::AnswerKind;
use wire_out::answer::Put as Sent;
use wire_out::writer::Writer;

// The longest answer: eight puts, each with sixteen counts and a value of sixty-four bytes. The slice is asked to have room for it, and is no array: of a writer over an array's slice the check does not know what it left there.
pub const ANSWER_MOST: usize = 1882;

// A put with as many counts as there are replicas.
fn sent(put: &Put, replicas: usize) -> Sent<'_>
    requires { replicas ≤ 16 }
    ensures is { put_of result ≡ one_put replicas put.now }
    ensures most { length (write_item (put_of result)) ≤ item_most }
{
    Sent {
        from: put.from,
        seen: &put.seen.counts[..replicas],
        key: put.key,
        value: put.value.as_bytes(),
    }
}

pub fn put_refusal(out: &mut [u8], refusal: Refusal) -> usize
    requires { answer_most ≤ length out.old }
    ensures { Writes result out.old out.new (λ b. b ≡ write_answer (refused refusal.number refusal.place)) }
{
    let mut to = Writer { out, at: 0 };
    to.byte(AnswerKind::Refused.number());
    to.number(refusal.number);
    to.number(refusal.place);
    to.at
}

// None or one put behind an answer's kind.
fn put_few(out: &mut [u8], kind: AnswerKind, put: Option<&Put>, replicas: usize) -> usize
    requires room { answer_most ≤ length out.old }
    requires counts { replicas ≤ 16 }
    ensures { Writes result out.old out.new (λ b. b ≡ answer_number kind ∷ write_puts (none_or_one replicas (option_copied put.entry))) }
{
    let mut to = Writer { out, at: 0 };
    to.byte(kind.number());
    if let Some(put) = put {
        to.item(sent(put, replicas));
    }
    to.end();
    to.at
}

// The logged puts that a clock lacks, the earliest first, eight at most.
fn put_reply(out: &mut [u8], view: &View<'_>, clock: &Clock) -> usize
    requires { answer_most ≤ length out.old }
    ensures { Writes result out.old out.new (λ b. (l : ModelLimits) (r : ModelReplica) (c : ModelClock) → SeenValid l r view.now → length c ≡ l.replicas → clock.now ≡ code_clock c → b ≡ write_answer (puts_of (reply_of c r.delivery))) }
{
    let mut reply = Writer { out, at: 0 };
    reply.byte(AnswerKind::Puts.number());
    for i in 0..REPLY_MOST {
        let Some(put) = view.reply_at(clock, i) else {
            break;
        };
        reply.item(sent(&put, view.at.replicas));
    }
    reply.end();
    reply.at
}

// A clock with as many counts as there are replicas.
fn put_clock(out: &mut [u8], clock: &Clock, replicas: usize) -> usize
    requires room { answer_most ≤ length out.old }
    requires counts { replicas ≤ 16 }
    ensures { Writes result out.old out.new (λ b. b ≡ write_answer (clock_is (take replicas clock.now.counts))) }
{
    let mut to = Writer { out, at: 0 };
    to.byte(AnswerKind::Clock.number());
    to.clock(&clock.counts[..replicas]);
    to.at
}

// What an accepted event is answered, from the state before it.
pub fn put_accepted(out: &mut [u8], view: &View<'_>, answer: &Answer<Clock>) -> usize
    requires { answer_most ≤ length out.old }
    ensures { Writes result out.old out.new (λ b. (l : ModelLimits) (r : ModelReplica) (e : ModelEvent) → SeenValid l r view.now → readable e ≡ true → in_range l e ≡ true → Ok answer.now ≡ code_answer l r e → b ≡ write_answer (answer_of l r e)) }
{
    let replicas = view.at.replicas;
    match answer {
        Answer::Made { put } => put_few(out, AnswerKind::Puts, Some(put), replicas),
        Answer::Came => put_few(out, AnswerKind::Puts, None, replicas),
        Answer::Reply { to } => put_reply(out, view, to),
        Answer::Value { put } => put_few(out, AnswerKind::Value, put.as_ref(), replicas),
        Answer::Clock { clock } => put_clock(out, clock, replicas),
    }
}

// What an event is answered, from the state before it, or why it is refused.
pub fn put_answer(out: &mut [u8], view: &View<'_>, answer: &Result<Answer<Clock>, Reason>) -> usize
    requires { answer_most ≤ length out.old }
    ensures { Writes result out.old out.new (λ b. (l : ModelLimits) (r : ModelReplica) (e : ModelEvent) → SeenValid l r view.now → readable e ≡ true → in_range l e ≡ true → answer.now ≡ code_answer l r e → b ≡ write_answer (answer_of l r e)) }
{
    match answer {
        Ok(answer) => put_accepted(out, view, answer),
        Err(reason) => put_refusal(out, Refusal::from(*reason)),
    }
}
