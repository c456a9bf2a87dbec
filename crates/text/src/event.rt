// Puts, events and answers as a script has them: clocks and values stand in vectors.
use puts::event;

pub type Put = event::Put<Vec<u64>, Vec<u8>>;

pub type Event = event::Event<Vec<u64>, Vec<u8>>;

pub type Answer = event::Answer<Vec<u64>, Vec<u8>, Vec<Put>>;
