// Between a script's events and answers, and bytes.
#![tactic(auto)]

pub mod reading;
pub mod writing;
