// What programs share that play a cluster from a script.
#![tactic(auto)]

pub mod play;
pub mod program;
