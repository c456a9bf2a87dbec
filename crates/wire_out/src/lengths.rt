// How many bytes parts take; the largest number, if they take more.
ghost use Rattle.model.specs.Replica.{value};
ghost use Rattle.wire.specs.Bytes.{write_body, write_clock, write_put, write_puts, write_answer, write_item};
ghost use Rattle.model.specs.Put.{text};
ghost use Rattle.wire_out.specs.Said.{none_or_one, put_of};
ghost use Rattle.wire_out.specs.Written.{capped};
ghost use Rattle.std.specs.Prelude.{◌≡◌, ◌+◌, [], map, length};

use crate::answer::Put;

#[tactic(auto, using(wire::proofs::Views::length_clock))]
pub(crate) fn clock_len(counts: &[u64]) -> usize
    ensures { result ≡ capped (length (write_clock counts.now [])) }
{
    counts.len().saturating_mul(9).saturating_add(1)
}

// A form, a key and a value.
pub(crate) fn body_len(value: &[u8]) -> usize
    ensures { result ≡ capped (9 + length value.now) }
{
    value.len().saturating_add(9)
}

#[tactic(auto, using(wire::proofs::Views::length_clock, wire::proofs::Views::length_put))]
pub(crate) fn put_len(put: Put<'_>) -> usize
    ensures { result ≡ capped (length (write_put (put_of put.entry))) }
{
    clock_len(put.seen)
        .saturating_add(8)
        .saturating_add(body_len(put.value))
}

// A put among others, with its mark and its length.
pub fn item_len(put: Put<'_>) -> usize
    ensures { result ≡ capped (length (write_item (put_of put.entry))) }
{
    put_len(put).saturating_add(9)
}

// Puts and their end.
pub(crate) fn puts_len(puts: &[Put<'_>]) -> usize
    ensures { result ≡ capped (length (write_puts (map put_of puts.now))) }
{
    puts.iter()
        .fold(1, |len, put| item_len(*put).saturating_add(len))
}

// An answer of none or one.
pub(crate) fn value_len(put: Option<Put<'_>>) -> usize
    ensures { result ≡ capped (length (write_answer (value (none_or_one put.entry)))) }
{
    puts_len(put.as_slice()).saturating_add(1)
}
