// Events and answers as bytes: written into a lent slice.
#![tactic(auto)]

pub mod answer;
pub mod answers;
pub mod event;
pub mod lengths;
pub mod part;
pub mod theorems;
pub mod writer;
