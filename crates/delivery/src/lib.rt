// Delivery in a replica's memory: which puts are taken, and in which order. Scanning what waits reads heads, and a whole slot only where the number fits.
#![tactic(auto)]

ghost use Rattle.std.specs.Prelude.{◌≡◌, ℕ, ◌+◌, ◌<◌, ◌≤◌, true, ◌≢◌, List, [], ◌∷◌, length, if◌then◌else◌, slice_index_or, slice_set};
ghost use Rattle.model.specs.Limits.{Limits};
ghost use Rattle.model.specs.Clock.{Clock as ModelClock};
ghost use Rattle.model.specs.Put.{Put as ModelPut, Body, number as number_of, had as is_had, same_put, key_of, text as text_at, good_body};
ghost use Rattle.model.specs.Delivery.{Run, begin, take_one, is_in, nothing_new as is_nothing_new, ready as is_ready, first_ready as first_of, enqueued, lacking, stamped, settle as settled, deliver as delivered};
ghost use Rattle.model.specs.Store.{Store, stand as stands, stored, shown};
ghost use Rattle.model.specs.Replica.{Replica as ModelReplica, put as put_of, came, possible, log_room, queue_room, moved};
ghost use Rattle.puts.specs.Values.{clock_size, code_clock, code_put, code_text, Bytes, Fit};
ghost use Rattle.puts.specs.Words.{Slot, code_slot, code_head};
ghost use Rattle.slots.specs.Image.{row_count, memory};
ghost use Rattle.memory.specs.Valid.{Sound, Fits};
ghost use Rattle.memory.specs.State.{with_waiting, with_store};
ghost use Rattle.logs.specs.State.{Fitted, Stands, Held, Seen, Same, nth_of};
ghost use Rattle.delivery.specs.Steps.{with_delivery, followed, took, if_ready, Moved, Emptied, Unswept};

use logs::{Replica, View, clock_of};
use memory::{SIZES_ROW, WAITING_SIZE};
use puts::words::Head;
use puts::{Clock, Put, Text};
use slots::{clear_slot, copy_slot, read_head, read_slot, write_slot, write_word};

// The head of the `i`-th put that waits: none past the end.
pub fn waiting_head(view: &View<'_>, i: usize) -> Option<Head>
    ensures { (l : Limits) (r : ModelReplica) → Seen l r view.now → result ≡ code_head (nth_of r.delivery.waiting i) }
{
    if i >= view.waiting() {
        return None;
    }
    read_head(view.mem, view.at.waiting_slot(i))
}

// The put itself.
pub fn waiting_at(view: &View<'_>, i: usize) -> Option<Put>
    ensures { (l : Limits) (r : ModelReplica) → Seen l r view.now → result ≡ code_slot (nth_of r.delivery.waiting i) }
{
    if i >= view.waiting() {
        return None;
    }
    read_slot(view.mem, view.at.waiting_slot(i))
}

// The `i`-th put that waits has this head.
fn waits_at(view: &View<'_>, i: usize, from: u64, number: u64) -> bool
    requires { i ≤ view.now.at.layout.waiting.count }
    ensures { (l : Limits) (r : ModelReplica) (q d : ModelPut Body) → Seen l r view.now → i < length r.delivery.waiting → from ≡ q.from → number ≡ number_of q → result ≡ same_put q (slice_index_or r.delivery.waiting i d) }
{
    let slot = view.at.waiting_slot(i);
    read_head(view.mem, slot).is_some_and(|head| from == head.from && number == head.number)
}

// A put with this head waits.
fn is_waiting(view: &View<'_>, from: u64, number: u64) -> bool
    ensures { (l : Limits) (r : ModelReplica) (q : ModelPut Body) → Seen l r view.now → from ≡ q.from → number ≡ number_of q → result ≡ is_in q r.delivery.waiting }
{
    (0..view.waiting()).any(|i| waits_at(view, i, from, number))
}

// It was taken.
pub fn had(mem: &[u64], p: &Put) -> bool
    ensures { (l : Limits) (r : ModelReplica) (q : ModelPut Body) → Fitted l r mem.now → Sound l q → p.now ≡ code_put q → result ≡ is_had r.delivery.clock q }
{
    p.had_by(&clock_of(mem))
}

// It was taken, or it waits already.
pub fn nothing_new(view: &View<'_>, p: &Put) -> bool
    ensures { (l : Limits) (r : ModelReplica) (q : ModelPut Body) → Seen l r view.now → Sound l q → p.now ≡ code_put q → result ≡ is_nothing_new r.delivery q }
{
    had(view.mem, p) || is_waiting(view, p.from, p.number())
}

// It is the next of its replica, and all that it had seen is here.
pub fn ready(mem: &[u64], p: &Put) -> bool
    ensures { (l : Limits) (r : ModelReplica) (q : ModelPut Body) → Fitted l r mem.now → Sound l q → p.now ≡ code_put q → result ≡ is_ready r.delivery q }
{
    p.ready(&clock_of(mem))
}

// The put that replica `me` makes now.
pub fn stamp(mem: &[u64], me: usize, key: u64, value: Text) -> Put
    ensures { (l : Limits) (r : ModelReplica) (v : List ℕ) → Fitted l r mem.now → me ≡ r.delivery.me → value ≡ code_text v → result ≡ code_put (stamped (text_at key v) r.delivery) }
{
    Put {
        from: me as u64,
        seen: clock_of(mem),
        key,
        value,
    }
}

// A put waits.
pub fn enqueue(replica: &mut Replica<'_>, p: &Put)
    ensures same { Same replica.old replica.new }
    ensures does { (l : Limits) (r : ModelReplica) (q : ModelPut Body) → Held l r replica.old → Sound l q → q.from ≢ r.delivery.me → length r.delivery.waiting < l.waiting_most → p.now ≡ code_put q → Held l (with_delivery (enqueued q r.delivery) r) replica.new }
{
    let n = replica.waiting();
    write_slot(replica.mem, replica.at.waiting_slot(n), p);
    write_word(replica.mem, SIZES_ROW, WAITING_SIZE, n as u64 + 1);
}

// A put is later than what stands at its key.
fn wins(replica: &Replica<'_>, p: &Put) -> bool
    ensures { (l : Limits) (r : ModelReplica) (q : ModelPut Body) → Fitted l r replica.now.mem.now → Sound l q → p.now ≡ code_put q → stands q (shown r.store (key_of q.body)) ≡ (if result then q ∷ [] else shown r.store (key_of q.body)) }
{
    replica.value_at(p.key).map_or(true, |old| p.later(&old))
}

// Then it stands there.
fn stand(replica: &mut Replica<'_>, p: &Put)
    ensures same { Same replica.old replica.new }
    ensures does { (l : Limits) (r : ModelReplica) (q : ModelPut Body) → Fitted l r replica.old.mem.now → Sound l q → p.now ≡ code_put q → Fitted l (with_store (stored q r.store) r) replica.new.mem.now }
{
    if wins(replica, p) {
        write_slot(replica.mem, replica.at.key_slot(p.key), p);
    }
}

// The put in slot `k` is had.
fn had_at(mem: &[u64], k: usize, clock: &Clock) -> bool
    ensures { (rs : List (List ℕ)) (ss : List Slot) (q : ModelPut Body) (c : ModelClock) → length rs ≡ row_count → k < length ss → slice_index_or ss k [] ≡ q ∷ [] → Fit q → length c ≤ clock_size → clock.now ≡ code_clock c → mem.now ≡ memory rs ss → result ≡ is_had c q }
{
    read_head(mem, k).is_some_and(|head| head.number <= clock.count(head.from))
}

// What stands in slot `k` stands in slot `to` too.
fn move_slot(mem: &mut [u64], k: usize, to: usize)
    ensures { (rs : List (List ℕ)) (ss : List Slot) → length rs ≡ row_count → k < length ss → to < length ss → mem.old ≡ memory rs ss → mem.new ≡ memory rs (slice_set ss to (slice_index_or ss k [])) }
{
    if k != to {
        copy_slot(mem, k, to);
    }
}

// Moves what is not had to the front of what waits, in its order; how much that is.
fn keep(mem: &mut [u64], base: usize, count: usize, clock: &Clock) -> usize
    requires { base + count ≤ 6144 }
    ensures bound { result ≤ count }
    ensures moved { (l : Limits) (r : ModelReplica) → Fitted l r mem.old → base ≡ l.keys + l.log_most → count ≡ length r.delivery.waiting → clock.now ≡ code_clock r.delivery.clock → Moved l r mem.new count result }
{
    // A fold would write the memory in its closure, and no chain says what that leaves.
    let mut stay = 0;
    for i in 0..count {
        if !had_at(mem, base + i, clock) {
            move_slot(mem, base + i, base + stay);
            stay += 1;
        }
    }
    stay
}

// Empties the slots of what waited behind the first `stay`.
fn empty(mem: &mut [u64], base: usize, count: usize, stay: usize)
    requires { base + count ≤ 6144 }
    ensures { (l : Limits) (r : ModelReplica) → Fits l r → base ≡ l.keys + l.log_most → count ≡ length r.delivery.waiting → stay ≤ count → Moved l r mem.old count stay → Emptied l r mem.new count stay }
{
    for j in stay..count {
        clear_slot(mem, base + j);
    }
}

// What is had waits no more.
fn clean(replica: &mut Replica<'_>)
    ensures same { Same replica.old replica.new }
    ensures does { (l : Limits) (r : ModelReplica) → Stands l r replica.old → Stands l (with_waiting (lacking r.delivery.clock r.delivery.waiting) r) replica.new }
{
    let count = replica.waiting();
    if count == 0 {
        return;
    }
    let clock = replica.clock_of();
    let base = replica.at.layout.waiting.base;
    let stay = keep(replica.mem, base, count, &clock);
    empty(replica.mem, base, count, stay);
    write_word(replica.mem, SIZES_ROW, WAITING_SIZE, stay as u64);
}

// After a count: of itself the replica knows its clock, and what all have leaves the log.
fn follow(replica: &mut Replica<'_>)
    ensures same { Same replica.old replica.new }
    ensures does { (l : Limits) (r : ModelReplica) → Held l r replica.old → Held l (followed r) replica.new }
{
    let clock = replica.clock_of();
    let me = replica.at.me;
    replica.know(me, &clock);
    replica.prune();
}

// Takes an own put, for which the log has room.
pub fn take_own(replica: &mut Replica<'_>, p: &Put)
    ensures same { Same replica.old replica.new }
    ensures does { (l : Limits) (r : ModelReplica) (q : ModelPut Body) → Held l r replica.old → Sound l q → is_ready r.delivery q ≡ true → q.from ≡ r.delivery.me → length r.delivery.log < l.log_most → p.now ≡ code_put q → Held l (moved (take_one q (begin r.delivery)) r.store) replica.new }
{
    let me = replica.at.me;
    replica.count_put(me);
    stand(replica, p);
    replica.push(p);
    follow(replica);
    clean(replica);
}

// Makes a put of these bytes at a key, and takes it.
pub fn make_put(replica: &mut Replica<'_>, key: u64, value: Text) -> Put
    ensures same { Same replica.old replica.new }
    ensures does { (l : Limits) (r : ModelReplica) (v : List ℕ) → Held l r replica.old → value ≡ code_text v → Bytes v → good_body l (text_at key v) ≡ true → log_room l r.delivery (put_of (text_at key v)) ≡ true → (result ≡ code_put (stamped (text_at key v) r.delivery)) × Held l (moved (take_one (stamped (text_at key v) r.delivery) (begin r.delivery)) r.store) replica.new }
{
    let view = replica.view();
    let p = stamp(view.mem, view.at.me, key, value);
    take_own(replica, &p);
    p
}

// Takes another's put, which is ready; what waits is left as it is.
fn take_other(replica: &mut Replica<'_>, p: &Put)
    ensures same { Same replica.old replica.new }
    ensures does { (l : Limits) (r : ModelReplica) (q : ModelPut Body) → Held l r replica.old → Sound l q → is_ready r.delivery q ≡ true → q.from ≢ r.delivery.me → p.now ≡ code_put q → Held l (with_waiting r.delivery.waiting (took q r)) replica.new }
{
    replica.count_put(p.from as usize);
    stand(replica, p);
    follow(replica);
}

// The `i`-th put that waits, if it is ready.
fn ready_at(replica: &Replica<'_>, i: usize, clock: &Clock) -> Option<Put>
    requires { i ≤ replica.now.at.layout.waiting.count }
    ensures { (l : Limits) (r : ModelReplica) (d : ModelPut Body) → Stands l r replica.now → i < length r.delivery.waiting → clock.now ≡ code_clock r.delivery.clock → result ≡ code_slot (if_ready r.delivery (slice_index_or r.delivery.waiting i d)) }
{
    let slot = replica.at.waiting_slot(i);
    let head = read_head(replica.mem, slot)?;
    if head.number != clock.count(head.from).wrapping_add(1) {
        return None;
    }
    let p = read_slot(replica.mem, slot)?;
    if !p.ready(clock) {
        return None;
    }
    Some(p)
}

// The first that came of the puts that wait and are ready.
fn first_ready(replica: &Replica<'_>) -> Option<Put>
    ensures { (l : Limits) (r : ModelReplica) → Stands l r replica.now → result ≡ code_slot (first_of r.delivery r.delivery.waiting) }
{
    let clock = replica.clock_of();
    (0..replica.waiting()).find_map(|i| ready_at(replica, i, &clock))
}

// Waiting puts are taken one after the other, always the first that came of those that are ready, as long as one is. They stay in their slots.
fn take_waiting(replica: &mut Replica<'_>)
    ensures same { Same replica.old replica.new }
    ensures does { (l : Limits) (m : Run Body) (s : Store) → Unswept l m s replica.old → Unswept l (settled l.waiting_most m) s replica.new }
{
    for _ in 0..replica.at.layout.waiting.count {
        let Some(p) = first_ready(replica) else {
            return;
        };
        take_other(replica, &p);
    }
}

// Then those that were taken leave the queue, all at once.
pub fn settle(replica: &mut Replica<'_>)
    ensures same { Same replica.old replica.new }
    ensures does { (l : Limits) (m : Run Body) (s : Store) → Unswept l m s replica.old → Held l (moved (settled l.waiting_most m) s) replica.new }
{
    if replica.waiting() == 0 {
        return;
    }
    take_waiting(replica);
    clean(replica);
}

// A put came: it is nothing new, or it waits, or it is taken and those that wait after it.
pub fn deliver(replica: &mut Replica<'_>, p: &Put)
    ensures same { Same replica.old replica.new }
    ensures does { (l : Limits) (r : ModelReplica) (q : ModelPut Body) → Held l r replica.old → Sound l q → possible r.delivery (came q) ≡ true → queue_room l r.delivery (came q) ≡ true → p.now ≡ code_put q → Held l (moved (delivered l q r.delivery) r.store) replica.new }
{
    let view = replica.view();
    let again = nothing_new(&view, p);
    if again {
        return;
    }
    let next = ready(view.mem, p);
    if next {
        take_other(replica, p);
        settle(replica);
    } else {
        enqueue(replica, p);
    }
}
