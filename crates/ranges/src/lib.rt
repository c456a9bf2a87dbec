// Range checks: an event that was read from bytes, by value, if its numbers are in range.
#![tactic(auto)]

ghost use Rattle.memory.specs.Layout.{InRange, code_limits};
ghost use Rattle.model.specs.Clock.{good_clock, small};
ghost use Rattle.model.specs.Limits.{Limits as ModelLimits};
ghost use Rattle.model.specs.Put.{good_body, text as text_of};
ghost use Rattle.model.specs.Replica.{came, in_range as is_in_range};
ghost use Rattle.puts.specs.Values.{code_clock, code_put, code_text};
ghost use Rattle.ranges.specs.Checked.{Handed, code_event};
ghost use Rattle.wire.specs.Reading.{clock_in};
ghost use Rattle.wire.specs.Said.{event as event_in, put_of};
ghost use Rattle.std.specs.Prelude.{◌≡◌, nat_lt};

use memory::Limits;
use puts::{COUNT_BOUND, Clock, Put, Text};
use wire::event::{ClockBytes, Event, PutBytes};

// An event whose numbers are in range.
pub type Checked = puts::event::Event<Clock, Text>;

// The number, if it is below the limit.
fn below(n: u64, limit: usize) -> Option<u64>
    ensures { Handed (nat_lt n limit) n result }
{
    (n < limit as u64).then_some(n)
}

// Each count is in range.
fn all_small(clock: &Clock) -> bool
    ensures { result ≡ small clock.now.counts }
{
    clock.counts.iter().all(|&count| count < COUNT_BOUND)
}

// The clock, if it has a count for each replica, in range.
fn clock_of(limits: Limits, bytes: ClockBytes<'_>) -> Option<Clock>
    ensures { (l : ModelLimits) → code_limits l ≡ limits → InRange limits → Handed (good_clock l (clock_in bytes.entry.bytes.now)) (code_clock (clock_in bytes.entry.bytes.now)) result }
{
    let clock = Clock {
        counts: bytes.counts(limits.replicas)?,
    };
    all_small(&clock).then_some(clock)
}

// A key and a value, if they are in range.
fn body_in_range(limits: Limits, key: u64, value: &[u8]) -> Option<(u64, Text)>
    ensures { (l : ModelLimits) → code_limits l ≡ limits → Handed (good_body l (text_of key value.now)) (key, code_text value.now) result }
{
    let key = below(key, limits.keys)?;
    let value = Text::from_bytes(value)?;
    Some((key, value))
}

// A put that came, if all of it is in range.
fn put_in_range(limits: Limits, put: PutBytes<'_>) -> Option<Put>
    ensures { (l : ModelLimits) → code_limits l ≡ limits → InRange limits → Handed (is_in_range l (came (put_of put.entry))) (code_put (put_of put.entry)) result }
{
    let (key, value) = body_in_range(limits, put.key, put.value)?;
    let from = below(put.from, limits.replicas)?;
    let seen = clock_of(limits, put.seen)?;
    if seen.count(from) >= COUNT_BOUND - 1 {
        return None;
    }
    Some(Put {
        from,
        seen,
        key,
        value,
    })
}

// The event by value, if all of it is in range.
pub fn in_range(limits: Limits, event: Event<'_>) -> Option<Checked>
    ensures { (l : ModelLimits) → code_limits l ≡ limits → InRange limits → Handed (is_in_range l (event_in event.entry)) (code_event (event_in event.entry)) result }
{
    Some(match event {
        Event::Put { key, value } => {
            let (key, value) = body_in_range(limits, key, value)?;
            Checked::Put { key, value }
        }
        Event::Get { key } => Checked::Get {
            key: below(key, limits.keys)?,
        },
        Event::Came { put } => Checked::Came {
            put: put_in_range(limits, put)?,
        },
        Event::Has { replica, clock } => Checked::Has {
            replica: below(replica, limits.replicas)?,
            clock: clock_of(limits, clock)?,
        },
        Event::Tell => Checked::Tell,
    })
}
