// Parts written one after the other over a lent slice. A crate above that has the room builds answers of them.
ghost use Rattle.std.specs.Prelude.{◌+◌, ◌*◌, ◌<◌, [], ◌∷◌, map, length, MatchOption};
ghost use Rattle.model.specs.Put.{text};
ghost use Rattle.wire.specs.Bytes.{write_body, write_clock, write_counts, write_item, write_number, write_put, write_puts};
ghost use Rattle.wire_out.specs.Said.{put_of};
ghost use Rattle.wire_out.specs.Written.{Adds, HasRoom};

use crate::answer::Put;
use crate::lengths::put_len;
use wire::mark::{END, FORM, NEXT};

// The next part is written from `at` on.
#[derive(Drop)]
pub struct Writer<'a> {
    pub out: &'a mut [u8],
    pub at: usize,
}

impl Writer<'_> {
    // None, if there is no room for so many bytes.
    pub fn room(&self, many: usize) -> Option<()>
        ensures { MatchOption result (length self.now.out.now < self.now.at + many) (λ _. HasRoom self.now many) }
    {
        let left = self.out.len().checked_sub(self.at)?;
        (many <= left).then_some(())
    }

    pub fn bytes(&mut self, part: &[u8])
        requires { HasRoom self.old (length part.now) }
        ensures { Adds self.old self.new part.now }
    {
        let end = self.at + part.len();
        self.out[self.at..end].copy_from_slice(part);
        self.at = end;
    }

    pub fn byte(&mut self, byte: u8)
        requires { HasRoom self.old 1 }
        ensures { Adds self.old self.new (byte ∷ []) }
    {
        self.bytes(&[byte]);
    }

    pub fn number(&mut self, n: u64)
        requires { HasRoom self.old 8 }
        ensures { Adds self.old self.new (write_number n) }
    {
        self.bytes(&n.to_le_bytes());
    }

    // The next count of a clock, or put among others, follows.
    fn mark(&mut self)
        requires { HasRoom self.old 1 }
        ensures { Adds self.old self.new (1 ∷ []) }
    {
        self.byte(NEXT);
    }

    // None follows.
    pub fn end(&mut self)
        requires { HasRoom self.old 1 }
        ensures { Adds self.old self.new (0 ∷ []) }
    {
        self.byte(END);
    }

    fn counts(&mut self, counts: &[u64])
        requires { HasRoom self.old (9 * length counts.now) }
        ensures { Adds self.old self.new (write_counts counts.now) }
    {
        for n in counts {
            self.mark();
            self.number(*n);
        }
    }

    // A clock: its counts, and their end.
    pub fn clock(&mut self, counts: &[u64])
        requires { HasRoom self.old (length (write_clock counts.now [])) }
        ensures { Adds self.old self.new (write_clock counts.now []) }
    {
        self.counts(counts);
        self.bytes(&[END]);
    }

    // The form of a body, a key, and a value.
    pub fn text(&mut self, key: u64, value: &[u8])
        requires { HasRoom self.old (9 + length value.now) }
        ensures { Adds self.old self.new (write_body (text key value.now)) }
    {
        self.byte(FORM);
        self.number(key);
        self.bytes(value);
    }

    pub fn put(&mut self, put: Put<'_>)
        requires { HasRoom self.old (length (write_put (put_of put))) }
        ensures { Adds self.old self.new (write_put (put_of put.entry)) }
    {
        self.number(put.from);
        self.clock(put.seen);
        self.text(put.key, put.value);
    }

    // A put among others: a mark, how many bytes it has, and these.
    pub fn item(&mut self, put: Put<'_>)
        requires { HasRoom self.old (length (write_item (put_of put))) }
        ensures { Adds self.old self.new (write_item (put_of put.entry)) }
    {
        self.bytes(&[NEXT]);
        self.number(put_len(put) as u64);
        self.put(put);
    }

    // Puts, and their end.
    pub fn puts(&mut self, puts: &[Put<'_>])
        requires { HasRoom self.old (length (write_puts (map put_of puts.now))) }
        ensures { Adds self.old self.new (write_puts (map put_of puts.now)) }
    {
        for put in puts {
            self.item(*put);
        }
        self.end();
    }
}
