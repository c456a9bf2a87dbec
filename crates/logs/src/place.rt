// Where the parts of a replica lie.
ghost use Rattle.logs.specs.Ranged.{Ranged};

use memory::{Layout, Limits};
use puts::words::SLOT;
use slots::HEADER;

// Where the parts of a replica lie, how many replicas there are, and which this is.
#[derive(Clone, Copy)]
pub struct Place {
    pub layout: Layout,
    pub replicas: usize,
    pub me: usize,
    pub ghost ranged: { Ranged layout replicas },
}

impl Place {
    ghost use Rattle.std.specs.Prelude.{◌≡◌, ◌+◌, ◌%◌, ◌<◌, ◌≤◌};
    ghost use Rattle.model.specs.Limits.{Limits as ModelLimits};
    ghost use Rattle.memory.specs.Layout.{code_limits, InRange};
    ghost use Rattle.logs.specs.State.{Laid, words_at};

    pub fn new(limits: Limits, me: usize) -> Place
        requires { InRange limits }
        ensures laid { (l : ModelLimits) → limits ≡ code_limits l → Laid l me result }
    {
        Place {
            layout: limits.layout(),
            replicas: limits.replicas,
            me,
        }
    }

    // How many words the replica takes.
    pub fn words(self) -> usize
        ensures { result ≡ words_at self }
    {
        HEADER + SLOT * (self.layout.waiting.base + self.layout.waiting.count)
    }

    // The slot of a key.
    pub fn key_slot(&self, key: u64) -> usize
        ensures { result ≡ self.now.layout.keys.base + key }
    {
        self.layout.keys.base + key as usize
    }

    // The slot of the own put with this number in the log.
    pub fn log_slot(&self, number: u64) -> usize
        requires { 0 < self.now.layout.log.count }
        ensures { result ≡ self.now.layout.log.base + number % self.now.layout.log.count }
    {
        self.layout.log.base + number as usize % self.layout.log.count
    }

    // The slot of the `i`-th put that waits.
    pub fn waiting_slot(&self, i: usize) -> usize
        requires { i ≤ self.now.layout.waiting.count }
        ensures { result ≡ self.now.layout.waiting.base + i }
    {
        self.layout.waiting.base + i
    }
}
