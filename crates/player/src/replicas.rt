// The replicas that are played: the memory that each is lent, and the bytes of its answers.
ghost use Rattle.player.specs.Played.{AllNew, Anew, New, Played, PlayedAt};
ghost use Rattle.memory.specs.Layout.{InRange};
ghost use Rattle.std.specs.Prelude.{◌≡◌, map, IfOk, vec_items, vec_len};

use endpoint::{ANSWER_MOST, call};
use memory::{Limits, open};
use messages::reading::read_answer;
use puts::words::SLOT;
use slots::HEADER;
use stage::play::{OpenError, REFUSED};
use std::alloc::{AllocError, Global};
use std::io;
use text::event::Answer;

#[derive(Drop)]
pub struct Replicas {
    heap: Global,
    memories: Vec<Vec<u64>>,
    answer: Vec<u8>,
}

impl Replicas {
    // None at first.
    pub fn none(heap: Global) -> Result<Replicas, AllocError> {
        Ok(Replicas {
            heap,
            memories: Vec::new(heap),
            answer: vec![in heap; 0u8; ANSWER_MOST]?,
        })
    }

    pub fn count(&self) -> u64
        ensures { result ≡ vec_len self.now.memories }
    {
        self.memories.len() as u64
    }

    // Opens all anew; or all stay as they are.
    pub fn open_all(&mut self, limits: Limits) -> Result<(), OpenError>
        ensures { Anew result limits (map vec_items self.old.memories.items) (map vec_items self.new.memories.items) }
    {
        if !limits.in_range() {
            return Err(OpenError::OutOfRange);
        }
        self.memories = all_opened(self.heap, limits)?;
        Ok(())
    }

    // The bytes come to a replica as an event. One that is not open refuses.
    pub fn call(&mut self, replica: u64, event: &[u8]) -> io::Result<Answer>
        ensures { IfOk result (λ a. PlayedAt (map vec_items self.old.memories.items) replica event.now (map vec_items self.new.memories.items) a) }
    {
        let Some(memory) = self.memories.get_mut(replica as usize) else {
            return Ok(REFUSED);
        };
        let answer = self.answer.as_mut_slice();
        answered(self.heap, memory.as_mut_slice(), event, answer)
    }
}

// The bytes come to the replica whose memory this is, and what it answers is read from its bytes.
fn answered(heap: Global, memory: &mut [u64], event: &[u8], answer: &mut [u8]) -> io::Result<Answer>
    ensures { IfOk result (λ a. Played memory.old event.now memory.new a) }
{
    let end = call(memory, event, answer).ok_or(io::ErrorKind::InvalidData)?;
    Ok(read_answer(heap, &answer[..end])?.ok_or(io::ErrorKind::InvalidData)?)
}

// Memory for all replicas, each opened in its own.
fn all_opened(heap: Global, limits: Limits) -> io::Result<Vec<Vec<u64>>>
    requires { InRange limits }
    ensures { IfOk result (λ v. AllNew limits limits.replicas (map vec_items v.items)) }
{
    let mut memories = Vec::new(heap);
    for me in 0..limits.replicas {
        memories.push(opened(heap, limits, me)?)?;
    }
    Ok(memories)
}

// Memory for one replica, which is opened in it.
fn opened(heap: Global, limits: Limits, me: usize) -> io::Result<Vec<u64>>
    requires { InRange limits }
    ensures { IfOk result (λ v. New limits me v.items) }
{
    let slots = limits.keys + limits.log + limits.waiting;
    let mut memory = vec![in heap; 0u64; HEADER + SLOT * slots]?;
    open(memory.as_mut_slice(), limits, me).map_err(|_| io::ErrorKind::InvalidInput)?;
    Ok(memory)
}
