// What happens at a replica, for every form in which clocks `C` and values `V` stand: as parts of bytes, lent, by value, on the heap.

// A put: which replica made it, what that one had seen before, and the value at its key.
#[derive(Clone, Copy, Drop)]
pub struct Put<C, V> {
    pub from: u64,
    pub seen: C,
    pub key: u64,
    pub value: V,
}

// What comes to a replica.
#[derive(Clone, Copy, Drop)]
pub enum Event<C, V> {
    Put { key: u64, value: V },
    Get { key: u64 },
    Came { put: Put<C, V> },
    Has { replica: u64, clock: C },
    Tell,
}

// Why an event is refused, and at what place of its bytes. A number and no enum: an answer that is read from bytes may say any, and each is read back as it was written.
#[derive(Clone, Copy)]
pub struct Refusal {
    pub number: u64,
    pub place: u64,
}

// What a replica answers. Several puts stand as `P`.
#[derive(Clone, Copy, Drop)]
pub enum Answer<C, V, P> {
    Refused { refusal: Refusal },
    Puts { puts: P },
    Value { put: Option<Put<C, V>> },
    Clock { clock: C },
}
