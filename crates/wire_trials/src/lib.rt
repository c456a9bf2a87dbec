// Events and answers as bytes, by examples.
#![tactic(auto)]

#[cfg(test)]
mod answers;
#[cfg(test)]
mod events;
pub mod outline;
