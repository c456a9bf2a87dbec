// A replica by bytes: an event's bytes in, its answer's bytes out.
#![tactic(auto)]

ghost use Rattle.std.specs.Prelude.{◌≡◌, ◌≤◌, length, take, IfSome};
ghost use Rattle.endpoint.specs.Call.{Answered, Called, Happens};
ghost use Rattle.endpoint.specs.Running.{Runs};
ghost use Rattle.endpoint.specs.Theorems.{EveryLifeRight, InEveryLife, LivesConverge, LivesHappen};
ghost use Rattle.memory.specs.Running.{all_events};
ghost use Rattle.model.specs.Program.{AnswersRight, MemoryBounded, Program, RefusalKeepsMemory};
ghost use Rattle.replies.specs.Written.{answer_most};

use calls::{Reason, answer_to, apply_accepted, enter};
use logs::{Place, Replica, View};
use ranges::Checked;
pub use replies::ANSWER_MOST;
use replies::{put_accepted, put_refusal};

// An event whose numbers are in range happens: first it is answered, then it changes the replica. What is refused changes nothing, and nothing is written.
fn happen(mem: &mut [u64], at: Place, event: &Checked, out: &mut [u8]) -> Result<usize, Reason>
    requires { answer_most ≤ length out.old }
    ensures { Happens result mem.old at event.now mem.new out.old out.new }
{
    let view = View { mem, at };
    let answer = answer_to(&view, event);
    let accepted = match &answer {
        Ok(accepted) => accepted,
        Err(reason) => return Err(*reason),
    };
    let len = put_accepted(out, &view, accepted);
    apply_accepted(&mut Replica { mem, at }, event, accepted);
    Ok(len)
}

// The event that the bytes are happens at the replica whose memory this is.
fn answered(mem: &mut [u64], event: &[u8], out: &mut [u8]) -> Result<usize, Reason>
    requires { answer_most ≤ length out.old }
    ensures { Answered result mem.old event.now mem.new out.old out.new }
{
    let (at, event) = enter(mem, event)?;
    happen(&mut mem[..at.words()], at, &event, out)
}

// The event that the bytes are happens at the replica whose memory this is; its answer stands in the first bytes of `out`, as many as are returned. What is refused changes nothing; memory that is no replica's is refused by 2. None, and nothing happens, if `out` cannot hold every answer.
pub fn call(mem: &mut [u64], event: &[u8], out: &mut [u8]) -> Option<usize>
    ensures exact { Called result mem.old event.now mem.new out.old out.new }
    ensures lives { IfSome result (λ n. InEveryLife mem.old event.now mem.new (take n out.new)) }
{
    if out.len() < ANSWER_MOST {
        return None;
    }
    match answered(mem, event, out) {
        Ok(len) => Some(len),
        Err(reason) => Some(put_refusal(out, reason.into())),
    }
}

// WHAT IS PROVED OF EVERY RUN of one replica. After any events each answer is the one that the rules give.
pub fn answers_right()
    ensures { (f : Program) → Runs f → AnswersRight all_events f }
{}

// A refused event leaves every word of the memory as it was.
pub fn refusal_keeps_memory()
    ensures { (f : Program) → Runs f → RefusalKeepsMemory all_events f }
{}

// The memory that was lent at opening suffices for ever.
pub fn memory_bounded()
    ensures { (f : Program) → Runs f → MemoryBounded all_events f }
{}

// WHAT IS PROVED OF CLUSTERS of replicas that are opened by `open` and called by `call`. In every life each get is answered with the latest of what the replica has, what it has is causally closed, and equal clocks give equal answers.
pub fn every_life_right()
    ensures { EveryLifeRight }
{}

// After the rounds of asking all answer the same.
pub fn lives_converge()
    ensures { LivesConverge }
{}

// Clusters can be opened, and in every life any bytes can come to any replica, with one outcome.
pub fn lives_happen()
    ensures { LivesHappen }
{}
