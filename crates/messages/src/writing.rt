// Events of a script to their bytes.
ghost use Rattle.messages.specs.Meaning.{event_of, put_of as put_meant};
ghost use Rattle.model.specs.Put.{text as text_of};
ghost use Rattle.model.specs.Replica.{came as came_of, get as get_of, has as has_of, put as put_of, tell as tell_of};
ghost use Rattle.std.specs.Prelude.{◌≡◌, take, IfOk, MatchOption};
ghost use Rattle.wire.specs.Bytes.{write_event};

use std::alloc::{AllocError, Global};
use text::event::{Event, Put};
use wire_out::answer::Put as Sent;
use wire_out::event::{write_came, write_get, write_has, write_put, write_tell};

// The bytes of an event.
pub fn event_bytes(heap: Global, event: &Event) -> Result<Vec<u8>, AllocError>
    ensures { IfOk result (λ v. v.items ≡ write_event (event_of event.now)) }
{
    match event {
        Event::Put { key, value } => put_bytes(heap, *key, value.as_slice()),
        Event::Get { key } => get_bytes(heap, *key),
        Event::Came { put } => came_bytes(heap, put),
        Event::Has { replica, clock } => has_bytes(heap, *replica, clock.as_slice()),
        Event::Tell => tell_bytes(heap),
    }
}

fn put_bytes(heap: Global, key: u64, value: &[u8]) -> Result<Vec<u8>, AllocError>
    ensures { IfOk result (λ v. v.items ≡ write_event (put_of (text_of key value.now))) }
{
    let mut bytes = vec![in heap; 0u8; value.len().saturating_add(10)]?;
    let end = write_put(bytes.as_mut_slice(), key, value);
    written(bytes, end)
}

fn get_bytes(heap: Global, key: u64) -> Result<Vec<u8>, AllocError>
    ensures { IfOk result (λ v. v.items ≡ write_event (get_of key)) }
{
    let mut bytes = vec![in heap; 0u8; 9]?;
    let end = write_get(bytes.as_mut_slice(), key);
    written(bytes, end)
}

// The bytes by which a put comes to a replica.
pub fn came_bytes(heap: Global, put: &Put) -> Result<Vec<u8>, AllocError>
    ensures { IfOk result (λ v. v.items ≡ write_event (came_of (put_meant put.now))) }
{
    let key = put.key;
    let value = put.value.as_slice();
    let from = put.from;
    let seen = put.seen.as_slice();
    let most = seen.len().saturating_mul(9).saturating_add(value.len());
    let mut bytes = vec![in heap; 0u8; most.saturating_add(19)]?;
    let sent = Sent {
        from,
        seen,
        key,
        value,
    };
    let end = write_came(bytes.as_mut_slice(), sent);
    written(bytes, end)
}

fn has_bytes(heap: Global, replica: u64, clock: &[u64]) -> Result<Vec<u8>, AllocError>
    ensures { IfOk result (λ v. v.items ≡ write_event (has_of replica clock.now)) }
{
    let mut bytes = vec![in heap; 0u8; clock.len().saturating_mul(9).saturating_add(10)]?;
    let end = write_has(bytes.as_mut_slice(), replica, clock);
    written(bytes, end)
}

fn tell_bytes(heap: Global) -> Result<Vec<u8>, AllocError>
    ensures { IfOk result (λ v. v.items ≡ write_event tell_of) }
{
    let mut bytes = vec![in heap; 0u8; 1]?;
    let end = write_tell(bytes.as_mut_slice());
    written(bytes, end)
}

// The bytes up to where what was written ends. Where nothing was written, no memory is large enough.
fn written(bytes: Vec<u8>, end: Option<usize>) -> Result<Vec<u8>, AllocError>
    ensures { IfOk result (λ v. MatchOption end ⊥ (λ n. v.items ≡ take n bytes.items)) }
{
    let Some(end) = end else {
        return Err(AllocError);
    };
    let mut bytes = bytes;
    bytes.truncate(end);
    Ok(bytes)
}
