// The text of puts, events and answers, as a script has them.
#![tactic(auto)]

pub mod event;
pub mod print;
