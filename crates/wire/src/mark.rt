// The bytes between the parts of events and answers.

// Before each count of a clock, and before each put among others.
pub const NEXT: u8 = 1;

// After the last.
pub const END: u8 = 0;

// Before a key and its value: the one form that a body has.
pub const FORM: u8 = 0;
