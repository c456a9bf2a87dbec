// The theorems about bytes: each is the contract of a function that does nothing.
ghost use Rattle.wire.specs.Theorems.{AnswerOnlyItsBytes, AnswerReadsBack, EventReadsBack, KindsOfEnd, OnlyItsBytes, PartsReadBack, PlaceRight, ReadIsReadable, ReplicaAnswersReadBack};

// Each event is read back as it was written, whatever its length; garbled ones too.
#[tactic(auto, using(crate::proofs::Events::reads_back))]
pub fn event_reads_back()
    ensures { EventReadsBack }
{}

// Each part of events and answers is read back, with what follows it.
#[tactic(auto, using(crate::proofs::Puts::parts_read_back))]
pub fn parts_read_back()
    ensures { PartsReadBack }
{}

// What is read as an event is exactly its bytes.
#[tactic(auto, using(crate::proofs::Events::only_its_bytes))]
pub fn only_its_bytes()
    ensures { OnlyItsBytes }
{}

// And it is an event that bytes can carry.
#[tactic(auto, using(crate::proofs::Events::read_is_readable))]
pub fn read_is_readable()
    ensures { ReadIsReadable }
{}

// Where bytes cease to be an event, what comes before begins one, and with the byte there it does not.
pub fn place_right()
    ensures { PlaceRight }
{}

// The place for each kind of end.
#[tactic(auto, using(crate::proofs::Events::kinds_of_end))]
pub fn kinds_of_end()
    ensures { KindsOfEnd }
{}

// Each answer is read back as it was written.
#[tactic(auto, using(crate::proofs::Puts::answer_reads_back))]
pub fn answer_reads_back()
    ensures { AnswerReadsBack }
{}

// What is read as an answer is exactly its bytes.
#[tactic(auto, using(crate::proofs::Exact::answer_only_its_bytes))]
pub fn answer_only_its_bytes()
    ensures { AnswerOnlyItsBytes }
{}

// Each answer of a replica is read back as it was written.
pub fn replica_answers_read_back()
    ensures { ReplicaAnswersReadBack }
{}
