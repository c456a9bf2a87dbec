// Events and answers as bytes: read.
#![tactic(auto)]

pub mod answer;
pub mod answers;
pub mod clock;
pub mod event;
pub mod garbled;
pub mod kind;
pub mod mark;
pub mod number;
pub mod parts;
pub mod read;
pub mod theorems;
