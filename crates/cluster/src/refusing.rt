// A cluster that supports no event yet.
use memory::Limits;
use stage::play::{Cluster, OpenError, REFUSED};
use std::alloc::Global;
use std::io;
use text::event::{Answer, Event};
use wire::read::read_event;

// How many replicas are open.
#[derive(Drop)]
pub struct Refusing {
    replicas: u64,
}

impl Cluster for Refusing {
    fn none(_heap: Global) -> io::Result<Refusing> {
        Ok(Refusing { replicas: 0 })
    }

    fn replicas(&self) -> u64 {
        self.replicas
    }

    fn open(&mut self, limits: Limits) -> Result<(), OpenError> {
        if !limits.in_range() {
            return Err(OpenError::OutOfRange);
        }
        self.replicas = limits.replicas as u64;
        Ok(())
    }

    fn event(&mut self, _replica: u64, _event: &Event) -> io::Result<Answer> {
        Ok(REFUSED)
    }

    // Bytes that are no event are refused as such.
    fn bytes(&mut self, replica: u64, bytes: &[u8]) -> io::Result<Answer> {
        if replica < self.replicas
            && let Err(garbled) = read_event(bytes)
        {
            return Ok(Answer::Refused {
                refusal: garbled.into(),
            });
        }
        Ok(REFUSED)
    }

    fn made(&self, _maker: u64, _number: u64) -> io::Result<Option<Event>> {
        Ok(None)
    }
}
