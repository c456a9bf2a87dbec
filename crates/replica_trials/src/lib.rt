// A replica whose log and queue are full, and one that is asked: by value, and by bytes.
#![tactic(auto)]

#[cfg(test)]
mod tests;
#[cfg(test)]
mod ways;
