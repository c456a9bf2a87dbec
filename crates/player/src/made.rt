// The puts made in a play, each as the bytes by which it comes to a replica.
ghost use Rattle.player.specs.Remembered.{one_more, put_made, remembered};
ghost use Rattle.messages.specs.Meaning.{put_of};
ghost use Rattle.model.specs.Replica.{came};
ghost use Rattle.std.specs.Prelude.{◌≡◌, [], ◌∷◌, replicate, IfOk, MatchOption, OnOk};
ghost use Rattle.wire.specs.Bytes.{write_event};

use messages::writing::came_bytes;
use std::alloc::{AllocError, Global};
use text::event::Put;

// By replica; put number N of a replica is its N-th.
#[derive(Drop)]
pub struct Made {
    heap: Global,
    puts: Vec<Vec<Vec<u8>>>,
}

impl Made {
    // Nothing is made yet, by none of these replicas.
    pub fn nothing(heap: Global, replicas: u64) -> Result<Made, AllocError>
        ensures { IfOk result (λ m. remembered m.puts ≡ replicate replicas []) }
    {
        let puts = (0..replicas).map(|_| Vec::new(heap)).collect(heap)?;
        Ok(Made { heap, puts })
    }

    // Remembers a put of its replica, behind those that were made there before.
    pub fn add(&mut self, put: &Put) -> Result<(), AllocError>
        ensures { OnOk result (remembered self.new.puts ≡ one_more (remembered self.old.puts) put.now.from (write_event (came (put_of put.now)))) }
    {
        let bytes = came_bytes(self.heap, put)?;
        if let Some(puts) = self.puts.get_mut(put.from as usize) {
            puts.push(bytes)?;
        }
        Ok(())
    }

    // Put number `number` of replica `maker`, if it was made.
    pub fn find(&self, maker: u64, number: u64) -> Option<&[u8]>
        ensures { MatchOption result (put_made (remembered self.now.puts) maker number ≡ []) (λ b. put_made (remembered self.now.puts) maker number ≡ b.now ∷ []) }
    {
        let place = number.checked_sub(1)?;
        let bytes = self.puts.get(maker as usize)?.get(place as usize)?;
        Some(bytes.as_slice())
    }
}
