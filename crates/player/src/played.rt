// The replicas that are played, each by its bytes, and the puts that they made.
use crate::made::Made;
use crate::replicas::Replicas;
use memory::Limits;
use messages::reading::read_event;
use messages::writing::event_bytes;
use stage::play::{Cluster, OpenError};
use std::alloc::Global;
use std::io;
use text::event::{Answer, Event};

#[derive(Drop)]
pub struct Played {
    heap: Global,
    replicas: Replicas,
    made: Made,
}

impl Cluster for Played {
    fn none(heap: Global) -> io::Result<Played> {
        Ok(Played {
            heap,
            replicas: Replicas::none(heap)?,
            made: Made::nothing(heap, 0)?,
        })
    }

    fn replicas(&self) -> u64 {
        self.replicas.count()
    }

    fn open(&mut self, limits: Limits) -> Result<(), OpenError> {
        self.replicas.open_all(limits)?;
        self.made = Made::nothing(self.heap, limits.replicas as u64).map_err(io::Error::from)?;
        Ok(())
    }

    fn event(&mut self, replica: u64, event: &Event) -> io::Result<Answer> {
        let bytes = event_bytes(self.heap, event)?;
        self.bytes(replica, bytes.as_slice())
    }

    // If it was a put, it is remembered.
    fn bytes(&mut self, replica: u64, bytes: &[u8]) -> io::Result<Answer> {
        let answer = self.replicas.call(replica, bytes)?;
        if let [0, ..] = bytes
            && let Answer::Puts { puts } = &answer
        {
            for put in puts.as_slice() {
                self.made.add(put)?;
            }
        }
        Ok(answer)
    }

    fn made(&self, maker: u64, number: u64) -> io::Result<Option<Event>> {
        let Some(bytes) = self.made.find(maker, number) else {
            return Ok(None);
        };
        Ok(read_event(self.heap, bytes)?)
    }
}
