// What was read, in short.
use wire::event::Event;
use wire::garbled::Garbled;
use wire::read::read_event;

// Of an event: how many counts its clock has, and how many bytes its value, in place of these.
#[derive(Clone, Copy, Debug, PartialEq, Eq)]
pub enum Outline {
    Put {
        key: u64,
        value: usize,
    },
    Get {
        key: u64,
    },
    Came {
        from: u64,
        counts: usize,
        value: usize,
    },
    Has {
        replica: u64,
        counts: usize,
    },
    Tell,
}

pub fn in_short(bytes: &[u8]) -> Result<Outline, Garbled> {
    Ok(match read_event(bytes)? {
        Event::Put { key, value } => Outline::Put {
            key,
            value: value.len(),
        },
        Event::Get { key } => Outline::Get { key },
        Event::Came { put } => Outline::Came {
            from: put.from,
            counts: put.seen.how_many(),
            value: put.value.len(),
        },
        Event::Has { replica, clock } => Outline::Has {
            replica,
            counts: clock.how_many(),
        },
        Event::Tell => Outline::Tell,
    })
}
