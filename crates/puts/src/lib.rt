// Clocks, values and puts, by value. A clock has sixteen counts, of which a replica uses as many as there are replicas; the others are 0.
#![tactic(auto)]

ghost use Rattle.std.specs.Prelude.{◌≡◌, ◌^◌, ◌<◌, ◌≤◌, true, length, replicate, nat_eq, Decides, MatchOption};
ghost use Rattle.std.specs.Cmp.Lexicographic.{pointwise};
ghost use Rattle.std.specs.Cmp.Rules.{comparing};
ghost use Rattle.std.specs.Ordering.{on};
ghost use Rattle.std.proofs.Common.{rules};
ghost use Rattle.model.specs.Limits.{count_bound, value_most};
ghost use Rattle.model.specs.Clock.{at as count_at, sum as sum_of, below as is_below, join as joined_with, tick};
ghost use Rattle.model.specs.Put.{number as number_of, later as is_later, had as has_put, Body};
ghost use Rattle.model.specs.Delivery.{Delivery, ready as is_ready};
ghost use Rattle.puts.specs.Values.{clock_size, Small, Bytes, put_of, code_text, value_in};

pub mod event;
pub mod words;

// How many counts a clock has, and the most bytes of a value.
pub const COUNTS: usize = 16;

pub const VALUE_MOST: usize = 64;

// Each count, and the number of a put, is below this.
pub const COUNT_BOUND: u64 = 4294967296;

#[derive(Clone, Copy)]
pub struct Clock {
    pub counts: [u64; COUNTS],
}

// A value: the first `len` of its bytes; the others are 0. No type hides the two: a `Text` is what the words of a slot say, in any memory, and contracts speak of it whole.
#[derive(Clone, Copy)]
pub struct Text {
    pub len: usize,
    pub bytes: [u8; VALUE_MOST],
}

// A put by value.
pub type Put = event::Put<Clock, Text>;

impl Clock {
    pub fn new() -> Clock
        ensures { result.counts ≡ replicate clock_size 0 }
    {
        Clock {
            counts: [0; COUNTS],
        }
    }

    // The count for replica `i`; 0 past the end.
    pub fn count(&self, i: u64) -> u64
        ensures { result ≡ count_at self.now.counts i }
    {
        self.counts.get(i as usize).copied().unwrap_or(0)
    }

    // One more put of replica `i`.
    pub fn bump(&mut self, i: u64)
        ensures { count_at self.old.counts i < count_bound → self.new.counts ≡ tick self.old.counts i }
    {
        // By index: what is written through `get_mut` of an array or a slice, no contract tells.
        let i = i as usize;
        if i < COUNTS {
            self.counts[i] = self.counts[i].wrapping_add(1);
        }
    }

    // Each count is at most the other's.
    pub fn below(&self, other: &Clock) -> bool
        ensures { result ≡ is_below self.now.counts other.now.counts }
    {
        self.counts
            .iter()
            .zip(&other.counts)
            .all(|(mine, theirs)| mine <= theirs)
    }

    // The larger of each count.
    pub fn join(&mut self, other: &Clock)
        ensures { self.new.counts ≡ joined_with self.old.counts other.now.counts }
    {
        // Of a `zip` with `iter_mut` no contract tells the elements.
        for (i, mine) in self.counts.iter_mut().enumerate() {
            *mine = (*mine).max(other.counts[i]);
        }
    }

    // All counts together.
    pub fn sum(&self) -> u64
        ensures { Small self.now.counts → result ≡ sum_of self.now.counts }
    {
        self.counts.iter().fold(0, |n: u64, c| n.wrapping_add(*c))
    }
}

impl Text {
    // A value of these bytes, if they are not too many.
    pub fn from_bytes(bytes: &[u8]) -> Option<Text>
        ensures value { MatchOption result (value_most < length bytes.now) (λ t. (length bytes.now ≤ value_most) × (t ≡ code_text bytes.now)) }
        ensures bytes { Bytes bytes.now }
    {
        let n = bytes.len();
        if n > VALUE_MOST {
            return None;
        }
        let mut all = [0; VALUE_MOST];
        all[..n].copy_from_slice(bytes);
        Some(Text { len: n, bytes: all })
    }

    pub fn as_bytes(&self) -> &[u8]
        ensures value { result.now ≡ value_in self.now }
        ensures most { length result.now ≤ value_most }
    {
        self.bytes.get(..self.len).unwrap_or(&self.bytes)
    }
}

impl PartialEq for Text {
    ghost eq = { on value_in (pointwise nat_eq) };

    ghost laws = { Prim.search (comparing, rules) };

    fn eq(&self, other: &Text) -> bool
        ensures { Decides result (value_in self.now ≡ value_in other.now) }
    {
        self.as_bytes() == other.as_bytes()
    }
}

impl Eq for Text {
    ghost laws = { Prim.search (comparing, rules) };
}

impl event::Put<Clock, Text> {
    // Its number among the puts of its replica, from 1.
    pub fn number(&self) -> u64
        ensures { number_of (put_of self.now) < 2 ^ 64 → result ≡ number_of (put_of self.now) }
    {
        self.seen.count(self.from).wrapping_add(1)
    }

    // Of two puts the later had seen more in all; at equal sums it is that of the larger replica.
    pub fn later(&self, other: &Put) -> bool
        ensures { Small self.now.seen.counts → Small other.now.seen.counts → result ≡ is_later (put_of self.now) (put_of other.now) }
    {
        (self.seen.sum(), self.from) > (other.seen.sum(), other.from)
    }

    // The clock has this put.
    pub fn had_by(&self, clock: &Clock) -> bool
        ensures { result ≡ has_put clock.now.counts (put_of self.now) }
    {
        self.seen.count(self.from) < clock.count(self.from)
    }

    // It is the next of its replica, and the clock has all that it had seen.
    pub fn ready(&self, clock: &Clock) -> bool
        ensures { (d : Delivery Body) → d.clock ≡ clock.now.counts → result ≡ is_ready d (put_of self.now) }
    {
        self.seen.count(self.from) == clock.count(self.from) && self.seen.below(clock)
    }
}
