// What comes to a replica, as its bytes have it: clocks and values are parts of the bytes that it was read from.
use puts::event;

// A clock: the bytes begin with it.
#[derive(Clone, Copy)]
pub struct ClockBytes<'a> {
    pub bytes: &'a [u8],
}

pub type PutBytes<'a> = event::Put<ClockBytes<'a>, &'a [u8]>;

pub type Event<'a> = event::Event<ClockBytes<'a>, &'a [u8]>;

pub use crate::garbled::NO_EVENT;
pub use puts::event::Refusal;
