// The header and the log of a replica in its memory: its clock, what each replica is known to have, and the own puts that somebody may lack. Nothing here costs more for more keys or a longer log.
#![tactic(auto)]

ghost use Rattle.std.specs.Prelude.{◌≡◌, ℕ, ◌+◌, ◌-◌, ◌<◌, ◌≤◌, [], ◌∷◌, length, take, slice_index_or, slice_set};
ghost use Rattle.model.specs.Limits.{Limits, count_bound, reply_most};
ghost use Rattle.model.specs.Clock.{Clock as ModelClock, at as count_at, tick};
ghost use Rattle.model.specs.Put.{Put as ModelPut, Body};
ghost use Rattle.model.specs.Delivery.{pruned, learned, begin, reply as reply_to};
ghost use Rattle.model.specs.Store.{shown};
ghost use Rattle.model.specs.Replica.{Replica as ModelReplica, moved};
ghost use Rattle.puts.specs.Values.{Small, code_clock, code_put};
ghost use Rattle.puts.specs.Words.{code_slot};
ghost use Rattle.memory.specs.Valid.{Sound, Shaped};
ghost use Rattle.memory.specs.State.{with_clock, with_log, with_known, own_count};
ghost use Rattle.logs.specs.State.{Fitted, Holds, Stands, Held, Seen, SeenValid, Same, nth_of};
ghost use Rattle.logs.specs.Log.{least, lacked_of};

pub mod place;

use memory::{CLOCK_ROW, KNOWN_ROW, LOG_SIZE, SIZES_ROW, WAITING_SIZE};
pub use place::Place;
use puts::{COUNTS, Clock, Put};
use slots::{clear_slot, read_row, read_slot, read_word, write_row, write_slot, write_word};

// The most puts of a reply.
pub const REPLY_MOST: usize = 8;

// The clock of a replica, from its memory.
pub fn clock_of(mem: &[u64]) -> Clock
    ensures { (l : Limits) (r : ModelReplica) → Fitted l r mem.now → result ≡ code_clock r.delivery.clock }
{
    read_row(mem, CLOCK_ROW)
}

// How many puts of replica `i` are here.
pub fn count_of(mem: &[u64], i: usize) -> u64
    ensures { (l : Limits) (r : ModelReplica) → Fitted l r mem.now → i < l.replicas → result ≡ count_at r.delivery.clock i }
{
    read_word(mem, CLOCK_ROW, i)
}

// How many puts wait, of `most` that may.
pub fn waiting(mem: &[u64], most: usize) -> usize
    ensures bound { result ≤ most }
    ensures count { (l : Limits) (r : ModelReplica) → Fitted l r mem.now → most ≡ l.waiting_most → result ≡ length r.delivery.waiting }
{
    (read_word(mem, SIZES_ROW, WAITING_SIZE) as usize).min(most)
}

// How many own puts are in the log, of `most` that may be.
pub fn logged(mem: &[u64], most: usize) -> usize
    ensures bound { result ≤ most }
    ensures count { (l : Limits) (r : ModelReplica) → Fitted l r mem.now → most ≡ l.log_most → length r.delivery.log ≤ l.log_most → result ≡ length r.delivery.log }
{
    (read_word(mem, SIZES_ROW, LOG_SIZE) as usize).min(most)
}

// What replica `i` is known to have.
pub fn known_of(mem: &[u64], i: usize) -> Clock
    ensures { (l : Limits) (r : ModelReplica) → Fitted l r mem.now → i < l.replicas → result ≡ code_clock (slice_index_or r.delivery.known i []) }
{
    if i >= COUNTS {
        return Clock::new();
    }
    read_row(mem, KNOWN_ROW + i)
}

// The clock counts one more put of replica `from`.
pub fn count_put(mem: &mut [u64], from: usize)
    ensures { (l : Limits) (r : ModelReplica) → Fitted l r mem.old → from < l.replicas → count_at r.delivery.clock from + 1 < count_bound → Fitted l (with_clock (tick r.delivery.clock from) r) mem.new }
{
    let n = count_of(mem, from);
    write_word(mem, CLOCK_ROW, from, n.wrapping_add(1));
}

// Replica `i` is known to have what a clock has, and nothing else.
pub fn know(mem: &mut [u64], i: usize, clock: &Clock)
    ensures { (l : Limits) (r : ModelReplica) (c : ModelClock) → Fitted l r mem.old → i < l.replicas → length c ≡ l.replicas → Small c → clock.now ≡ code_clock c → Fitted l (with_known (slice_set r.delivery.known i c) r) mem.new }
{
    if i < COUNTS {
        write_row(mem, KNOWN_ROW + i, clock);
    }
}

// How many a clock lacks of the log of replica `me`, in which there may be `log`.
fn lacked(mem: &[u64], me: usize, log: usize, clock: &Clock) -> usize
    ensures { (l : Limits) (r : ModelReplica) (c : ModelClock) → Holds l r mem.now → me ≡ r.delivery.me → log ≡ l.log_most → length c ≡ l.replicas → clock.now ≡ code_clock c → result ≡ lacked_of c r.delivery }
{
    let own = count_of(mem, me);
    let behind = own.saturating_sub(clock.count(me as u64)) as usize;
    behind.min(logged(mem, log))
}

// How many puts replica `me` answers to a clock, from its log, in which there may be `log`.
pub fn reply_count(mem: &[u64], me: usize, log: usize, clock: &Clock) -> usize
    ensures most { result ≤ reply_most }
    ensures count { (l : Limits) (r : ModelReplica) (c : ModelClock) → Holds l r mem.now → me ≡ r.delivery.me → log ≡ l.log_most → length c ≡ l.replicas → clock.now ≡ code_clock c → result ≡ length (reply_to c r.delivery) }
{
    lacked(mem, me, log, clock).min(REPLY_MOST)
}

// A replica in memory that is only read.
#[derive(Clone, Copy)]
pub struct View<'a> {
    pub mem: &'a [u64],
    pub at: Place,
}

impl View<'_> {
    // How many puts were made here.
    pub fn own_count(&self) -> u64
        ensures { (l : Limits) (r : ModelReplica) → Seen l r self.now → result ≡ own_count r }
    {
        count_of(self.mem, self.at.me)
    }

    // How many puts wait.
    pub fn waiting(&self) -> usize
        ensures bound { result ≤ self.now.at.layout.waiting.count }
        ensures count { (l : Limits) (r : ModelReplica) → Seen l r self.now → result ≡ length r.delivery.waiting }
    {
        waiting(self.mem, self.at.layout.waiting.count)
    }

    // How many own puts are in the log.
    pub fn logged(&self) -> usize
        ensures bound { result ≤ self.now.at.layout.log.count }
        ensures count { (l : Limits) (r : ModelReplica) → Seen l r self.now → length r.delivery.log ≤ l.log_most → result ≡ length r.delivery.log }
    {
        logged(self.mem, self.at.layout.log.count)
    }

    // What stands at a key: none or a put.
    pub fn value_at(&self, key: u64) -> Option<Put>
        ensures { (l : Limits) (r : ModelReplica) → Fitted l r self.now.mem.now → key < l.keys → result ≡ code_slot (shown r.store key) }
    {
        read_slot(self.mem, self.at.key_slot(key))
    }

    // How many puts are answered to a clock.
    pub fn reply_count(&self, clock: &Clock) -> usize
        ensures most { result ≤ reply_most }
        ensures count { (l : Limits) (r : ModelReplica) (c : ModelClock) → SeenValid l r self.now → length c ≡ l.replicas → clock.now ≡ code_clock c → result ≡ length (reply_to c r.delivery) }
    {
        reply_count(self.mem, self.at.me, self.at.layout.log.count, clock)
    }

    // The own put with this number, which is in the log.
    fn read_log(&self, number: u64) -> Option<Put>
        ensures { (l : Limits) (r : ModelReplica) (k : ℕ) (d : ModelPut Body) → SeenValid l r self.now → k < length r.delivery.log → number ≡ own_count r - k → result ≡ code_slot (slice_index_or r.delivery.log k d ∷ []) }
    {
        if self.at.layout.log.count == 0 {
            return None;
        }
        read_slot(self.mem, self.at.log_slot(number))
    }

    // The put at place `i` of what is answered to a clock, the earliest first: none past the end.
    pub fn reply_at(&self, clock: &Clock, i: usize) -> Option<Put>
        ensures { (l : Limits) (r : ModelReplica) (c : ModelClock) → SeenValid l r self.now → length c ≡ l.replicas → clock.now ≡ code_clock c → result ≡ code_slot (nth_of (reply_to c r.delivery) i) }
    {
        let len = lacked(self.mem, self.at.me, self.at.layout.log.count, clock);
        if i >= len || i >= REPLY_MOST {
            return None;
        }
        let own = self.own_count();
        self.read_log(own.saturating_sub((len - 1 - i) as u64))
    }
}

// A replica in the memory that it was lent.
#[derive(Drop)]
pub struct Replica<'a> {
    pub mem: &'a mut [u64],
    pub at: Place,
}

impl Replica<'_> {
    // The replica, only to read.
    pub fn view(&self) -> View<'_>
        ensures { (result.mem.now ≡ self.now.mem.now) × (result.at ≡ self.now.at) }
    {
        View {
            mem: &*self.mem,
            at: self.at,
        }
    }

    pub fn clock_of(&self) -> Clock
        ensures { (l : Limits) (r : ModelReplica) → Fitted l r self.now.mem.now → result ≡ code_clock r.delivery.clock }
    {
        clock_of(self.mem)
    }

    // How many puts of replica `i` are here.
    pub fn count_of(&self, i: usize) -> u64
        ensures { (l : Limits) (r : ModelReplica) → Fitted l r self.now.mem.now → i < l.replicas → result ≡ count_at r.delivery.clock i }
    {
        count_of(self.mem, i)
    }

    // How many puts were made here.
    pub fn own_count(&self) -> u64
        ensures { (l : Limits) (r : ModelReplica) → Stands l r self.now → result ≡ own_count r }
    {
        self.count_of(self.at.me)
    }

    // How many puts wait.
    pub fn waiting(&self) -> usize
        ensures bound { result ≤ self.now.at.layout.waiting.count }
        ensures count { (l : Limits) (r : ModelReplica) → Stands l r self.now → result ≡ length r.delivery.waiting }
    {
        self.view().waiting()
    }

    // How many own puts are in the log.
    pub fn logged(&self) -> usize
        ensures bound { result ≤ self.now.at.layout.log.count }
        ensures count { (l : Limits) (r : ModelReplica) → Stands l r self.now → length r.delivery.log ≤ l.log_most → result ≡ length r.delivery.log }
    {
        self.view().logged()
    }

    // What replica `i` is known to have.
    pub fn known_of(&self, i: usize) -> Clock
        ensures { (l : Limits) (r : ModelReplica) → Fitted l r self.now.mem.now → i < l.replicas → result ≡ code_clock (slice_index_or r.delivery.known i []) }
    {
        known_of(self.mem, i)
    }

    // What stands at a key: none or a put.
    pub fn value_at(&self, key: u64) -> Option<Put>
        ensures { (l : Limits) (r : ModelReplica) → Fitted l r self.now.mem.now → key < l.keys → result ≡ code_slot (shown r.store key) }
    {
        self.view().value_at(key)
    }

    // How many puts are answered to a clock.
    pub fn reply_count(&self, clock: &Clock) -> usize
        ensures most { result ≤ reply_most }
        ensures count { (l : Limits) (r : ModelReplica) (c : ModelClock) → Held l r self.now → length c ≡ l.replicas → clock.now ≡ code_clock c → result ≡ length (reply_to c r.delivery) }
    {
        self.view().reply_count(clock)
    }

    // The put at place `i` of what is answered to a clock, the earliest first: none past the end.
    pub fn reply_at(&self, clock: &Clock, i: usize) -> Option<Put>
        ensures { (l : Limits) (r : ModelReplica) (c : ModelClock) → Held l r self.now → length c ≡ l.replicas → clock.now ≡ code_clock c → result ≡ code_slot (nth_of (reply_to c r.delivery) i) }
    {
        self.view().reply_at(clock, i)
    }

    // The clock counts one more put of replica `from`.
    pub fn count_put(&mut self, from: usize)
        ensures same { Same self.old self.new }
        ensures does { (l : Limits) (r : ModelReplica) → Fitted l r self.old.mem.now → from < l.replicas → count_at r.delivery.clock from + 1 < count_bound → Fitted l (with_clock (tick r.delivery.clock from) r) self.new.mem.now }
    {
        count_put(self.mem, from);
    }

    // Replica `i` is known to have what a clock has, and nothing else.
    pub fn know(&mut self, i: usize, clock: &Clock)
        ensures same { Same self.old self.new }
        ensures does { (l : Limits) (r : ModelReplica) (c : ModelClock) → Fitted l r self.old.mem.now → i < l.replicas → length c ≡ l.replicas → Small c → clock.now ≡ code_clock c → Fitted l (with_known (slice_set r.delivery.known i c) r) self.new.mem.now }
    {
        know(self.mem, i, clock);
    }

    // The smallest count for this replica over all that is known, `own` at most.
    fn least_known(&self, own: u64) -> u64
        ensures { (l : Limits) (r : ModelReplica) → Stands l r self.now → result ≡ least own r.delivery.me r.delivery.known }
    {
        (0..self.at.replicas).fold(own, |low, i| {
            low.min(read_word(self.mem, KNOWN_ROW + i, self.at.me))
        })
    }

    // An own put goes to the log.
    pub fn push(&mut self, p: &Put)
        ensures same { Same self.old self.new }
        ensures does { (l : Limits) (r : ModelReplica) (q : ModelPut Body) → Stands l r self.old → Sound l q → length r.delivery.log < l.log_most → p.now ≡ code_put q → Stands l (with_log (q ∷ r.delivery.log) r) self.new }
    {
        if self.at.layout.log.count == 0 {
            return;
        }
        let len = self.logged();
        write_slot(self.mem, self.at.log_slot(p.number()), p);
        write_word(self.mem, SIZES_ROW, LOG_SIZE, len as u64 + 1);
    }

    // The log keeps its last `stay`; what is older leaves, one after the other.
    fn shorten(&mut self, own: u64, stay: usize)
        ensures same { Same self.old self.new }
        ensures does { (l : Limits) (r : ModelReplica) → Stands l r self.old → Shaped l r.delivery → own ≡ own_count r → Stands l (with_log (take stay r.delivery.log) r) self.new }
    {
        for len in (stay..self.logged()).rev() {
            let slot = self.at.log_slot(own.saturating_sub(len as u64));
            clear_slot(self.mem, slot);
            write_word(self.mem, SIZES_ROW, LOG_SIZE, len as u64);
        }
    }

    // What all are known to have leaves the log.
    pub fn prune(&mut self)
        ensures same { Same self.old self.new }
        ensures does { (l : Limits) (r : ModelReplica) → Stands l r self.old → Shaped l r.delivery → Stands l (with_log (pruned r.delivery.known r.delivery.log) r) self.new }
    {
        let own = self.own_count();
        let low = self.least_known(own);
        self.shorten(own, own.saturating_sub(low) as usize);
    }

    // Replica `i` has told what it has: that is known now, and what all are known to have leaves the log.
    pub fn learn(&mut self, i: usize, clock: &Clock)
        ensures same { Same self.old self.new }
        ensures does { (l : Limits) (r : ModelReplica) (c : ModelClock) → Held l r self.old → i < l.replicas → length c ≡ l.replicas → Small c → clock.now ≡ code_clock c → Held l (moved (begin (learned i c r.delivery)) r.store) self.new }
    {
        let mut row = self.known_of(i);
        row.join(clock);
        self.know(i, &row);
        self.prune();
    }
}
