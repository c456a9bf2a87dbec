// The theorems, each the contract of a function: without its proof the crate is refused. specs/Theorems.antt says what each means.
#![tactic(auto)]

ghost use Rattle.model.specs.Theorems.{RefusalChangesNothing, AgainChangesNothing, ClockMonotone, ViewMonotone, StoreIsFold, TakenIsHad, CausalOrder, ShowsLatest, CausallyClosed, SameClockSameView, SeenIsEarlier, LaterIsTotal, ReadsOwnPut, ReadyIsTaken, PrunedIsEverywhere, Converges, RoundsHappen, ConvergesApart, ConvergesByList, ConvergesInOrder, ProgramIsReplica, ProgramShowsLatest, ProgramsAgree, ProgramsConverge};
ghost use Rattle.model.specs.Example.{WorkedExample, ReplyOfEight};
ghost use Rattle.model.specs.Instances.{PremisesMet};

// Of any replica, in any state.
pub fn refusal_changes_nothing()
    ensures { RefusalChangesNothing }
{}

pub fn again_changes_nothing()
    ensures { AgainChangesNothing }
{}

pub fn clock_monotone()
    ensures { ClockMonotone }
{}

pub fn view_monotone()
    ensures { ViewMonotone }
{}

pub fn store_is_fold()
    ensures { StoreIsFold }
{}

// Of any reachable cluster.
pub fn taken_is_had()
    ensures { TakenIsHad }
{}

pub fn causal_order()
    ensures { CausalOrder }
{}

pub fn shows_latest()
    ensures { ShowsLatest }
{}

pub fn causally_closed()
    ensures { CausallyClosed }
{}

pub fn same_clock_same_view()
    ensures { SameClockSameView }
{}

pub fn seen_is_earlier()
    ensures { SeenIsEarlier }
{}

pub fn later_is_total()
    ensures { LaterIsTotal }
{}

pub fn reads_own_put()
    ensures { ReadsOwnPut }
{}

pub fn ready_is_taken()
    ensures { ReadyIsTaken }
{}

pub fn pruned_is_everywhere()
    ensures { PrunedIsEverywhere }
{}

// Convergence.
pub fn converges()
    ensures { Converges }
{}

pub fn rounds_happen()
    ensures { RoundsHappen }
{}

pub fn converges_apart()
    ensures { ConvergesApart }
{}

pub fn converges_by_list()
    ensures { ConvergesByList }
{}

pub fn converges_in_order()
    ensures { ConvergesInOrder }
{}

// Programs that answer right.
pub fn program_is_replica()
    ensures { ProgramIsReplica }
{}

pub fn program_shows_latest()
    ensures { ProgramShowsLatest }
{}

pub fn programs_agree()
    ensures { ProgramsAgree }
{}

pub fn programs_converge()
    ensures { ProgramsConverge }
{}

// Examples, by computing; and that no theorem speaks of nothing.
pub fn worked_example()
    ensures { WorkedExample }
{}

pub fn reply_of_eight()
    ensures { ReplyOfEight }
{}

pub fn premises_met()
    ensures { PremisesMet }
{}
