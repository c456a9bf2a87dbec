// A replica: what each event is answered or why it is refused, and what it does to the replica in its lent memory.
#![tactic(auto)]

ghost use Rattle.logs.specs.State.{Held, SeenValid, Same, words_at};
ghost use Rattle.model.specs.Clock.{Clock as ModelClock};
ghost use Rattle.model.specs.Limits.{Limits as ModelLimits};
ghost use Rattle.memory.specs.Image.{encode};
ghost use Rattle.memory.specs.Layout.{Room, limits_at, me_at};
ghost use Rattle.memory.specs.Valid.{Sound, Valid};
ghost use Rattle.model.specs.Put.{Body, Put as ModelPut, good_body, text as text_of, value_of};
ghost use Rattle.model.specs.Replica.{Event as ModelEvent, Replica as ModelReplica, after, came as came_of, get as get_of, has as has_of, in_range as is_in_range, log_room, possible, put as put_of, queue_room as has_queue_room, tell as tell_of};
ghost use Rattle.puts.specs.Values.{Bytes, code_clock, code_put, code_text};
ghost use Rattle.calls.specs.Answered.{AllSupported, AnswerSaid, Passes, code_answer, number_of, place_of};
ghost use Rattle.calls.specs.Entered.{Comes, Entered};
ghost use Rattle.calls.specs.declared.Reason.TheVariants.{Impossible, LogFull, NoEvent, OutOfRange, QueueFull};
ghost use Rattle.std.specs.Prelude.{◌≡◌, ℕ, ◌<◌, ◌≤◌, true, List, ◌++◌, IfOk, Ok, Err, length};

use delivery::{deliver, had, nothing_new, ready, stamp, take_own};
use logs::{Place, Replica, View, clock_of};
use memory::limits_of;
use puts::event::Refusal;
use puts::{COUNT_BOUND, Clock, Put, Text};
use ranges::{Checked, in_range};
use wire::garbled::Garbled;
use wire::read::read_event;

// Why an event is refused.
#[derive(Clone, Copy, Debug, PartialEq, Eq)]
pub enum Reason {
    // From this place on the bytes are no event.
    NoEvent { place: u64 },
    // A number is out of range.
    OutOfRange,
    // It speaks of more puts of this replica than were made here.
    Impossible,
    // The log has no room for one more put.
    LogFull,
    // The put would have to wait, and the queue has no room for it.
    QueueFull,
}

// As it stands in the bytes of an answer.
impl From<Reason> for Refusal {
    ghost from_gives = { λ w f. (f.number ≡ number_of w) × (f.place ≡ place_of w) };

    fn from(reason: Reason) -> Refusal {
        let (number, place) = match reason {
            Reason::NoEvent { place } => (1, place),
            Reason::OutOfRange => (2, 0),
            Reason::Impossible => (3, 0),
            Reason::LogFull => (4, 0),
            Reason::QueueFull => (5, 0),
        };
        Refusal { number, place }
    }
}

impl From<Garbled> for Reason {
    ghost from_gives = { λ g w. w ≡ NoEvent g.place };

    fn from(garbled: Garbled) -> Reason {
        Reason::NoEvent {
            place: garbled.place as u64,
        }
    }
}

impl From<memory::OutOfRange> for Reason {
    ghost from_gives = { λ _ w. w ≡ OutOfRange };

    fn from(_: memory::OutOfRange) -> Reason {
        Reason::OutOfRange
    }
}

// What an event that is accepted is answered. The puts of a reply stand as `R`.
#[derive(Clone, Copy, Drop)]
pub enum Answer<R> {
    Made { put: Put },
    Came,
    Reply { to: R },
    Value { put: Option<Put> },
    Clock { clock: Clock },
}

// The event that the bytes are at the replica whose memory this is, with the place of its parts there; or why it is refused before anything is read but the header.
pub fn enter(mem: &[u64], bytes: &[u8]) -> Result<(Place, Checked), Reason>
    ensures image { (l : ModelLimits) (r : ModelReplica) (rest : List ℕ) → AllSupported l → Valid l r → mem.now ≡ encode l r ++ rest → Entered l r bytes.now result }
    ensures foreign { (Room (limits_at mem.now) (me_at mem.now) mem.now → ⊥) → result ≡ Err OutOfRange }
    ensures room { IfOk result (λ x. (words_at x.0 ≤ length mem.now) × Room (limits_at mem.now) (me_at mem.now) mem.now) }
{
    let (limits, me) = limits_of(mem)?;
    let event = read_event(bytes)?;
    match in_range(limits, event) {
        Some(event) => Ok((Place::new(limits, me), event)),
        None => Err(Reason::OutOfRange),
    }
}

// One more own put has its room and its number.
fn own_room(view: &View<'_>) -> Result<(), Reason>
    ensures { (l : ModelLimits) (r : ModelReplica) (b : Body) → SeenValid l r view.now → Passes (log_room l r.delivery (put_of b)) LogFull result }
{
    if view.logged() >= view.at.layout.log.count || view.own_count() >= COUNT_BOUND - 1 {
        return Err(Reason::LogFull);
    }
    Ok(())
}

// A put is made here.
fn put_answer(view: &View<'_>, key: u64, value: Text) -> Result<Answer<Clock>, Reason>
    ensures { (l : ModelLimits) (r : ModelReplica) (v : List ℕ) → SeenValid l r view.now → AllSupported l → value ≡ code_text v → good_body l (text_of key v) ≡ true → result ≡ code_answer l r (put_of (text_of key v)) }
{
    own_room(view)?;
    Ok(Answer::Made {
        put: stamp(view.mem, view.at.me, key, value),
    })
}

// The put that came can be: one of this replica's own was made here.
fn possible_put(view: &View<'_>, p: &Put) -> Result<(), Reason>
    ensures { (l : ModelLimits) (r : ModelReplica) (q : ModelPut Body) → SeenValid l r view.now → Sound l q → p.now ≡ code_put q → Passes (possible r.delivery (came_of q)) Impossible result }
{
    if p.from == view.at.me as u64 && !had(view.mem, p) {
        return Err(Reason::Impossible);
    }
    Ok(())
}

// The put that came need not wait, or finds room.
fn queue_room(view: &View<'_>, p: &Put) -> Result<(), Reason>
    ensures { (l : ModelLimits) (r : ModelReplica) (q : ModelPut Body) → SeenValid l r view.now → Sound l q → p.now ≡ code_put q → Passes (has_queue_room l r.delivery (came_of q)) QueueFull result }
{
    if view.waiting() < view.at.layout.waiting.count {
        return Ok(());
    }
    let again = nothing_new(view, p);
    let next = ready(view.mem, p);
    if again || next {
        return Ok(());
    }
    Err(Reason::QueueFull)
}

// A put came.
fn came_answer(view: &View<'_>, p: &Put) -> Result<Answer<Clock>, Reason>
    ensures { (l : ModelLimits) (r : ModelReplica) (q : ModelPut Body) → SeenValid l r view.now → AllSupported l → Sound l q → is_in_range l (came_of q) ≡ true → p.now ≡ code_put q → result ≡ code_answer l r (came_of q) }
{
    // What is not possible is refused as that, with room or without.
    let _possible = possible_put(view, p)?;
    let _room = queue_room(view, p)?;
    Ok(Answer::Came)
}

// A clock that was told has no more of this replica's puts than it made.
fn possible_clock(view: &View<'_>, clock: &Clock) -> Result<(), Reason>
    ensures { (l : ModelLimits) (r : ModelReplica) (j : ℕ) (c : ModelClock) → SeenValid l r view.now → length c ≡ l.replicas → clock.now ≡ code_clock c → Passes (possible r.delivery (has_of j c)) Impossible result }
{
    if clock.count(view.at.me as u64) > view.own_count() {
        return Err(Reason::Impossible);
    }
    Ok(())
}

// A replica told its clock. The reply is read off it later.
fn has_answer(view: &View<'_>, clock: &Clock) -> Result<Answer<Clock>, Reason>
    ensures { (l : ModelLimits) (r : ModelReplica) (j : ℕ) (c : ModelClock) → SeenValid l r view.now → AllSupported l → is_in_range l (has_of j c) ≡ true → clock.now ≡ code_clock c → result ≡ code_answer l r (has_of j c) }
{
    possible_clock(view, clock)?;
    Ok(Answer::Reply { to: *clock })
}

// What stands at a key.
fn get_answer(view: &View<'_>, key: u64) -> Answer<Clock>
    ensures { (l : ModelLimits) (r : ModelReplica) → SeenValid l r view.now → AllSupported l → key < l.keys → Ok result ≡ code_answer l r (get_of key) }
{
    let put = view.value_at(key);
    Answer::Value { put }
}

// Its clock.
fn tell_answer(view: &View<'_>) -> Answer<Clock>
    ensures { (l : ModelLimits) (r : ModelReplica) → SeenValid l r view.now → AllSupported l → Ok result ≡ code_answer l r tell_of }
{
    Answer::Clock {
        clock: clock_of(view.mem),
    }
}

// What an event whose numbers are in range is answered, or why it is refused. Nothing changes.
pub fn answer_to(view: &View<'_>, event: &Checked) -> Result<Answer<Clock>, Reason>
    ensures { (l : ModelLimits) (r : ModelReplica) (e : ModelEvent) → SeenValid l r view.now → AllSupported l → Comes l e event.now → result ≡ code_answer l r e }
{
    match event {
        Checked::Put { key, value } => put_answer(view, *key, *value),
        Checked::Get { key } => Ok(get_answer(view, *key)),
        Checked::Came { put } => came_answer(view, put),
        Checked::Has { replica: _, clock } => has_answer(view, clock),
        Checked::Tell => Ok(tell_answer(view)),
    }
}

// A put that was made is taken.
fn apply_put(replica: &mut Replica<'_>, answer: &Answer<Clock>)
    ensures same { Same replica.old replica.new }
    ensures does { (l : ModelLimits) (r : ModelReplica) (b : Body) → Held l r replica.old → Bytes (value_of b) → good_body l b ≡ true → Ok answer.now ≡ code_answer l r (put_of b) → Held l (after l r (put_of b)) replica.new }
{
    if let Answer::Made { put } = answer {
        take_own(replica, put);
    }
}

// A put that came is taken, or waits.
fn apply_came(replica: &mut Replica<'_>, p: &Put, answer: &Answer<Clock>)
    ensures same { Same replica.old replica.new }
    ensures does { (l : ModelLimits) (r : ModelReplica) (q : ModelPut Body) → Held l r replica.old → Sound l q → p.now ≡ code_put q → Ok answer.now ≡ code_answer l r (came_of q) → Held l (after l r (came_of q)) replica.new }
{
    if let Answer::Came = answer {
        deliver(replica, p);
    }
}

// What an event does that is accepted and answered so.
pub fn apply_accepted(replica: &mut Replica<'_>, event: &Checked, answer: &Answer<Clock>)
    ensures same { Same replica.old replica.new }
    ensures does { (l : ModelLimits) (r : ModelReplica) (e : ModelEvent) → Held l r replica.old → Comes l e event.now → Ok answer.now ≡ code_answer l r e → Held l (after l r e) replica.new }
{
    match event {
        Checked::Put { key: _, value: _ } => apply_put(replica, answer),
        Checked::Came { put } => apply_came(replica, put, answer),
        Checked::Has {
            replica: from,
            clock,
        } => replica.learn(*from as usize, clock),
        Checked::Get { key: _ } => {}
        Checked::Tell => {}
    }
}

// What an event does that is answered so: nothing, if it is refused.
pub fn apply(replica: &mut Replica<'_>, event: &Checked, answer: &Result<Answer<Clock>, Reason>)
    ensures same { Same replica.old replica.new }
    ensures does { (l : ModelLimits) (r : ModelReplica) (e : ModelEvent) → Held l r replica.old → Comes l e event.now → answer.now ≡ code_answer l r e → Held l (after l r e) replica.new }
{
    match answer {
        Ok(answer) => apply_accepted(replica, event, answer),
        Err(_reason) => {}
    }
}

// WHAT AN ANSWER SAYS, by its number and its values, is what the rules say.
pub fn answer_said()
    ensures { AnswerSaid }
{}
