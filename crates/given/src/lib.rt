// The statements in their first, flat form (specs/Statements.antt), each proved from the model's.
#![tactic(auto)]

ghost use Rattle.std.specs.Prelude.{◌≡◌, ℕ, Bool, true, false};
ghost use Rattle.model.specs.Program.{Program, AnswersRight as ModelAnswersRight, RefusalKeepsMemory as ModelRefusalKeepsMemory, MemoryBounded as ModelMemoryBounded};
ghost use Rattle.given.specs.Statements.{ShowsLatest, CausallyClosed, SameClockSameView, Converges, SeenIsEarlier, LaterIsTotal, ReadsOwnPut, ReadyIsTaken, PrunedIsEverywhere, ViewMonotone, ClockMonotone, RefusalChangesNothing, AnswersRight, RefusalKeepsMemory, MemoryBounded};
ghost use Rattle.given.specs.Translation.{flat};

// False of a build that does not support get, so with that premise.
pub fn shows_latest()
    ensures { (can : ℕ → Bool) → can 1 ≡ true → ShowsLatest can }
{}

pub fn shows_latest_needs_get()
    ensures { (can : ℕ → Bool) → can 1 ≡ false → ShowsLatest can → ⊥ }
{}

pub fn causally_closed()
    ensures { (can : ℕ → Bool) → CausallyClosed can }
{}

pub fn same_clock_same_view()
    ensures { (can : ℕ → Bool) → SameClockSameView can }
{}

pub fn converges()
    ensures { (can : ℕ → Bool) → Converges can }
{}

pub fn seen_is_earlier()
    ensures { (can : ℕ → Bool) → SeenIsEarlier can }
{}

pub fn later_is_total()
    ensures { (can : ℕ → Bool) → LaterIsTotal can }
{}

pub fn reads_own_put()
    ensures { (can : ℕ → Bool) → ReadsOwnPut can }
{}

pub fn ready_is_taken()
    ensures { (can : ℕ → Bool) → ReadyIsTaken can }
{}

pub fn pruned_is_everywhere()
    ensures { (can : ℕ → Bool) → PrunedIsEverywhere can }
{}

pub fn view_monotone()
    ensures { ViewMonotone }
{}

pub fn clock_monotone()
    ensures { ClockMonotone }
{}

pub fn refusal_changes_nothing()
    ensures { RefusalChangesNothing }
{}

// What the model asks of a program is what the flat form asks of it.
pub fn answers_right()
    ensures { (can : ℕ → Bool) (f : Program) → ModelAnswersRight can f → AnswersRight can (flat f) }
{}

pub fn refusal_keeps_memory()
    ensures { (can : ℕ → Bool) (f : Program) → ModelRefusalKeepsMemory can f → RefusalKeepsMemory can (flat f) }
{}

pub fn memory_bounded()
    ensures { (can : ℕ → Bool) (f : Program) → ModelMemoryBounded can f → MemoryBounded can (flat f) }
{}
