// Parts written over a slice from a place on, where there is room. Each gives the place after it.
ghost use Rattle.std.specs.Prelude.{◌+◌, ◌≤◌, [], length};
ghost use Rattle.wire.specs.Bytes.{write_clock, write_number};
ghost use Rattle.wire_out.specs.Written.{Wrote};

use crate::writer::Writer;

pub fn put_bytes(out: &mut [u8], at: usize, part: &[u8]) -> usize
    requires { at + length part.now ≤ length out.old }
    ensures { Wrote result at out.old out.new part.now }
{
    let mut to = Writer { out, at };
    to.bytes(part);
    to.at
}

pub fn put_number(out: &mut [u8], at: usize, n: u64) -> usize
    requires { at + 8 ≤ length out.old }
    ensures { Wrote result at out.old out.new (write_number n) }
{
    let mut to = Writer { out, at };
    to.number(n);
    to.at
}

// A clock: its counts, and their end.
pub fn put_clock(out: &mut [u8], at: usize, counts: &[u64]) -> usize
    requires { at + length (write_clock counts.now []) ≤ length out.old }
    ensures { Wrote result at out.old out.new (write_clock counts.now []) }
{
    let mut to = Writer { out, at };
    to.clock(counts);
    to.at
}
