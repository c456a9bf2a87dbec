// Events and answers of a script from their bytes.
ghost use Rattle.messages.specs.Meaning.{answer_of as answer_meant, event_of as event_meant, put_of as put_meant};
ghost use Rattle.model.specs.Replica.{legible};
ghost use Rattle.std.specs.Prelude.{◌≡◌, false, map, IfOk, Some, MatchOption};
ghost use Rattle.std.specs.Option.{option_map};
ghost use Rattle.wire.specs.Answers.{puts_in, read_answer};
ghost use Rattle.wire.specs.Reading.{clock_in, read};
ghost use Rattle.wire.specs.Said.{answer as answer_in, event as event_in, put_of as put_in};

use std::alloc::{AllocError, Global};
use text::event::{Answer, Event, Put};
use wire::answer::{Answer as AnswerBytes, PutsBytes};
use wire::event::{ClockBytes, Event as EventBytes, PutBytes};

// The event that bytes are, or none.
pub fn read_event(heap: Global, bytes: &[u8]) -> Result<Option<Event>, AllocError>
    ensures { IfOk result (λ o. MatchOption o (legible (read bytes.now) ≡ false) (λ e. event_meant e ≡ read bytes.now)) }
{
    match wire::read::read_event(bytes) {
        Ok(event) => Ok(Some(event_of(heap, event)?)),
        Err(_) => Ok(None),
    }
}

fn event_of(heap: Global, event: EventBytes<'_>) -> Result<Event, AllocError>
    ensures { IfOk result (λ e. event_meant e ≡ event_in event.entry) }
{
    match event {
        EventBytes::Put { key, value } => {
            let value = value.to_vec(heap)?;
            Ok(Event::Put { key, value })
        }
        EventBytes::Get { key } => Ok(Event::Get { key }),
        EventBytes::Came { put } => {
            let put = put_of(heap, put)?;
            Ok(Event::Came { put })
        }
        EventBytes::Has { replica, clock } => {
            let clock = counts_of(heap, clock)?;
            Ok(Event::Has { replica, clock })
        }
        EventBytes::Tell => Ok(Event::Tell),
    }
}

// The answer that bytes are, or none.
pub fn read_answer(heap: Global, bytes: &[u8]) -> Result<Option<Answer>, AllocError>
    ensures { IfOk result (λ o. option_map answer_meant o ≡ read_answer bytes.now) }
{
    match wire::answers::read_answer(bytes) {
        Some(answer) => answer_of(heap, answer),
        None => Ok(None),
    }
}

fn answer_of(heap: Global, answer: AnswerBytes<'_>) -> Result<Option<Answer>, AllocError>
    ensures { IfOk result (λ o. option_map answer_meant o ≡ answer_in (Some answer.entry)) }
{
    match answer {
        AnswerBytes::Refused { refusal } => Ok(Some(Answer::Refused { refusal })),
        AnswerBytes::Puts { puts } => match puts_of(heap, puts)? {
            Some(puts) => Ok(Some(Answer::Puts { puts })),
            None => Ok(None),
        },
        AnswerBytes::Value { put: None } => Ok(Some(Answer::Value { put: None })),
        AnswerBytes::Value { put: Some(put) } => {
            let put = put_of(heap, put)?;
            Ok(Some(Answer::Value { put: Some(put) }))
        }
        AnswerBytes::Clock { clock } => {
            let clock = counts_of(heap, clock)?;
            Ok(Some(Answer::Clock { clock }))
        }
    }
}

// Puts one after the other, up to their end; none if the bytes are no puts.
fn puts_of(heap: Global, puts: PutsBytes<'_>) -> Result<Option<Vec<Put>>, AllocError>
    ensures { IfOk result (λ o. option_map (λ v. map put_meant v.items) o ≡ puts_in puts.entry.bytes.now) }
{
    let mut all = Vec::new(heap);
    for put in puts {
        let Ok(put) = put else {
            return Ok(None);
        };
        all.push(put_of(heap, put)?)?;
    }
    Ok(Some(all))
}

fn put_of(heap: Global, put: PutBytes<'_>) -> Result<Put, AllocError>
    ensures { IfOk result (λ p. put_meant p ≡ put_in put.entry) }
{
    let value = put.value.to_vec(heap)?;
    let seen = counts_of(heap, put.seen)?;
    Ok(Put {
        from: put.from,
        seen,
        key: put.key,
        value,
    })
}

// The counts of a clock.
fn counts_of(heap: Global, clock: ClockBytes<'_>) -> Result<Vec<u64>, AllocError>
    ensures { IfOk result (λ v. v.items ≡ clock_in clock.entry.bytes.now) }
{
    let mut counts = Vec::new(heap);
    for n in clock {
        counts.push(n)?;
    }
    Ok(counts)
}
