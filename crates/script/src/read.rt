// Text to events.
ghost use Rattle.script.specs.Events.{CanEvent, CanPair, CanPut, CanTwo, keyed, two_text};
ghost use Rattle.std.specs.Prelude.{IfOk};
ghost use Rattle.text.specs.Printed.{event_words, put_text};
ghost use Rattle.words.specs.Text.{Reads};

use std::alloc::{AllocError, Global};
use text::event::{Event, Put};
use words::{number, numbers, value};

// The event that a text is, without its replica.
pub fn read_event(heap: Global, text: &str) -> Result<Option<Event>, AllocError>
    ensures { IfOk result (λ o. Reads event_words CanEvent text.now o) }
{
    if text == "tell" {
        return Ok(Some(Event::Tell));
    }
    let Some((verb, rest)) = text.split_once(' ') else {
        return Ok(None);
    };
    match verb {
        "put" => {
            let Some((key, value)) = read_keyed(heap, rest)? else {
                return Ok(None);
            };
            Ok(Some(Event::Put { key, value }))
        }
        "get" => Ok(number(rest).map(|key| Event::Get { key })),
        "came" => {
            let Some(put) = read_put(heap, rest)? else {
                return Ok(None);
            };
            Ok(Some(Event::Came { put }))
        }
        "has" => {
            let Some(mut clock) = numbers(heap, rest)? else {
                return Ok(None);
            };
            let replica = clock.remove(0);
            Ok(Some(Event::Has { replica, clock }))
        }
        _ => Ok(None),
    }
}

// A key and a value.
fn read_keyed(heap: Global, text: &str) -> Result<Option<(u64, Vec<u8>)>, AllocError>
    ensures { IfOk result (λ o. Reads keyed CanPair text.now o) }
{
    let Some((key, rest)) = text.split_once(' ') else {
        return Ok(None);
    };
    let Some(key) = number(key) else {
        return Ok(None);
    };
    let Some(value) = value(heap, rest)? else {
        return Ok(None);
    };
    Ok(Some((key, value)))
}

// Two numbers.
pub fn read_two(text: &str) -> Option<(u64, u64)>
    ensures { Reads two_text CanTwo text.now result }
{
    let (first, rest) = text.split_once(' ')?;
    Some((number(first)?, number(rest)?))
}

// A put: key, value, replica, and the counts of what it had seen.
fn read_put(heap: Global, text: &str) -> Result<Option<Put>, AllocError>
    ensures { IfOk result (λ o. Reads put_text CanPut text.now o) }
{
    let Some((key, rest)) = text.split_once(' ') else {
        return Ok(None);
    };
    let Some(key) = number(key) else {
        return Ok(None);
    };
    let Some((word, rest)) = rest.split_once(' ') else {
        return Ok(None);
    };
    let Some(value) = value(heap, word)? else {
        return Ok(None);
    };
    let Some(mut seen) = numbers(heap, rest)? else {
        return Ok(None);
    };
    let from = seen.remove(0);
    Ok(Some(Put {
        key,
        value,
        from,
        seen,
    }))
}
