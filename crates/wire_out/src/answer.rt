// What is written: puts by value over lent counts and values, and what a replica answers.
use puts::event;

pub type Put<'a> = event::Put<&'a [u64], &'a [u8]>;

pub type Answer<'a> = event::Answer<&'a [u64], &'a [u8], &'a [Put<'a>]>;
