// Events from their bytes.
ghost use Rattle.model.specs.Replica.{came, get, put, tell};
ghost use Rattle.std.specs.Prelude.{◌≡◌};
ghost use Rattle.wire.specs.Kinds.{event_number};
ghost use Rattle.wire.specs.Reading.{has_told, mapped, read, read_body as body_read, read_key, read_nothing, read_parts, read_put as put_read, read_told};
ghost use Rattle.wire.specs.Said.{Within, event as event_in, part, said};
ghost use Rattle.wire.specs.Theorems.{AllBytes, ReadsRight};

use crate::event::{ClockBytes, Event};
use crate::garbled::Garbled;
use crate::kind::EventKind;
use crate::number::rest;
use crate::parts::{read_body, read_clock, read_end, read_number, read_put};

fn put_event(bytes: &[u8]) -> Result<Event<'_>, Garbled>
    ensures is { part event_in result ≡ mapped put (body_read bytes.now) }
    ensures within { Within result bytes.now }
{
    let (key, value) = read_body(bytes)?;
    Ok(Event::Put { key, value })
}

fn get_event(bytes: &[u8]) -> Result<Event<'_>, Garbled>
    ensures is { part event_in result ≡ mapped get (read_key bytes.now) }
    ensures within { Within result bytes.now }
{
    let key = read_number(bytes)?;
    read_end(bytes, 8)?;
    Ok(Event::Get { key })
}

fn came_event(bytes: &[u8]) -> Result<Event<'_>, Garbled>
    ensures is { part event_in result ≡ mapped came (put_read bytes.now) }
    ensures within { Within result bytes.now }
{
    let put = read_put(bytes)?;
    Ok(Event::Came { put })
}

fn has_event(bytes: &[u8]) -> Result<Event<'_>, Garbled>
    ensures is { part event_in result ≡ mapped has_told (read_told bytes.now) }
    ensures within { Within result bytes.now }
{
    let replica = read_number(bytes)?;
    let clock = ClockBytes {
        bytes: rest(bytes, 8),
    };
    let size = read_clock(clock.bytes).map_err(|garbled| garbled.after(8))?;
    read_end(bytes, 8 + size)?;
    Ok(Event::Has { replica, clock })
}

fn tell_event(bytes: &[u8]) -> Result<Event<'_>, Garbled>
    ensures is { part event_in result ≡ mapped (λ _. tell) (read_nothing bytes.now) }
    ensures within { Within result bytes.now }
{
    read_end(bytes, 0)?;
    Ok(Event::Tell)
}

#[tactic(auto, unfolding(crate::specs::Reading::read_parts))]
fn event_of(kind: EventKind, bytes: &[u8]) -> Result<Event<'_>, Garbled>
    ensures is { part event_in result ≡ read_parts (event_number kind) bytes.now }
    ensures within { Within result bytes.now }
{
    match kind {
        EventKind::Put => put_event(bytes),
        EventKind::Get => get_event(bytes),
        EventKind::Came => came_event(bytes),
        EventKind::Has => has_event(bytes),
        EventKind::Tell => tell_event(bytes),
    }
}

// The event that the bytes are; or they are none, from a place on.
pub fn read_event(bytes: &[u8]) -> Result<Event<'_>, Garbled>
    ensures is { said result ≡ read bytes.now }
    ensures right { ReadsRight bytes.now (said result) }
    ensures bytes { AllBytes bytes.now }
{
    by_kind(bytes)
}

#[tactic(auto, unfolding(crate::specs::Reading::read_event))]
fn by_kind(bytes: &[u8]) -> Result<Event<'_>, Garbled>
    ensures { said result ≡ read bytes.now }
{
    let (number, parts) = bytes.split_first().ok_or(Garbled { place: 0 })?;
    let kind = EventKind::try_from(*number).map_err(|_| Garbled { place: 0 })?;
    event_of(kind, parts).map_err(|garbled| garbled.after(1))
}
