// A replica by value: an event's bytes in, its answer as a value out.
#![tactic(auto)]

ghost use Rattle.logs.specs.State.{Holds, Laid, SeenValid};
ghost use Rattle.memory.specs.Running.{all_events};
ghost use Rattle.model.specs.Clock.{Clock as ModelClock};
ghost use Rattle.model.specs.Delivery.{reply as reply_of};
ghost use Rattle.model.specs.Limits.{Limits as ModelLimits};
ghost use Rattle.model.specs.Program.{AnswersRight, MemoryBounded, Program, RefusalKeepsMemory, readable};
ghost use Rattle.model.specs.Replica.{Event as ModelEvent, Replica as ModelReplica, after, answer as answer_of, in_range as is_in_range};
ghost use Rattle.puts.specs.Values.{code_clock};
ghost use Rattle.calls.specs.Entered.{Comes};
ghost use Rattle.calls.specs.Answered.{AllSupported, code_answer};
ghost use Rattle.std.specs.Prelude.{◌≡◌, true, length, Ok};
ghost use Rattle.replica.specs.Answered.{says_in, some_puts};
ghost use Rattle.replica.specs.Running.{Called, Runs};

use calls::{answer_to, apply_accepted, enter};
pub use calls::{Answer, Reason};
use logs::{Place, REPLY_MOST, Replica, View};
use puts::{Clock, Put};
use ranges::Checked;
use std::array;

// The puts of a reply, the earliest first, and none behind them.
pub type Reply = [Option<Put>; REPLY_MOST];

// The logged puts that a clock lacks.
fn reply(view: &View<'_>, clock: &Clock) -> Reply
    ensures { (l : ModelLimits) (r : ModelReplica) (c : ModelClock) → SeenValid l r view.now → length c ≡ l.replicas → clock.now ≡ code_clock c → some_puts l.replicas result ≡ reply_of c r.delivery }
{
    array::from_fn(|i| view.reply_at(clock, i))
}

// The answer with its reply read, from the state before the event.
fn replied(view: &View<'_>, answer: &Answer<Clock>) -> Answer<Reply>
    ensures { (l : ModelLimits) (r : ModelReplica) (e : ModelEvent) → SeenValid l r view.now → readable e ≡ true → is_in_range l e ≡ true → Ok answer.now ≡ code_answer l r e → says_in l.replicas (Ok result) ≡ answer_of l r e }
{
    match answer {
        Answer::Made { put } => Answer::Made { put: *put },
        Answer::Came => Answer::Came,
        Answer::Reply { to } => Answer::Reply {
            to: reply(view, to),
        },
        Answer::Value { put } => Answer::Value { put: *put },
        Answer::Clock { clock } => Answer::Clock { clock: *clock },
    }
}

// An event whose numbers are in range happens.
fn act(mem: &mut [u64], at: Place, event: &Checked) -> Result<Answer<Reply>, Reason>
    ensures does { (l : ModelLimits) (r : ModelReplica) (e : ModelEvent) → Holds l r mem.old → Laid l r.delivery.me at → AllSupported l → Comes l e event.now → Holds l (after l r e) mem.new }
    ensures says { (l : ModelLimits) (r : ModelReplica) (e : ModelEvent) → Holds l r mem.old → Laid l r.delivery.me at → AllSupported l → Comes l e event.now → says_in l.replicas result ≡ answer_of l r e }
{
    let view = View { mem, at };
    let answer = answer_to(&view, event)?;
    let said = replied(&view, &answer);
    apply_accepted(&mut Replica { mem, at }, event, &answer);
    Ok(said)
}

// The event that the bytes are happens at the replica whose memory this is. What is refused changes nothing; memory that is no replica's is refused as out of range.
pub fn step(mem: &mut [u64], event: &[u8]) -> Result<Answer<Reply>, Reason>
    ensures { Called mem.old event.now mem.new result }
{
    let (at, event) = enter(mem, event)?;
    act(&mut mem[..at.words()], at, &event)
}

// WHAT IS PROVED OF EVERY RUN. After any events each answer is the one that the rules give.
pub fn answers_right()
    ensures { (f : Program) → Runs f → AnswersRight all_events f }
{}

// A refused event leaves every word of the memory as it was.
pub fn refusal_keeps_memory()
    ensures { (f : Program) → Runs f → RefusalKeepsMemory all_events f }
{}

// The memory that was lent at opening suffices for ever.
pub fn memory_bounded()
    ensures { (f : Program) → Runs f → MemoryBounded all_events f }
{}
