// Lent memory as a header of rows and then slots: reading and writing one, in any memory. What is not there is read as none or zeros, and not written.
#![tactic(auto)]

ghost use Rattle.std.specs.Prelude.{◌≡◌, ◌+◌, ◌*◌, ◌<◌, ◌≤◌, true, false, length, take, drop, replicate, MatchOption};
ghost use Rattle.puts.specs.Words.{slot_size, put_words};
ghost use Rattle.slots.specs.Image.{row_size, row_count, header_size, slot_start, has_slot, slot_at, has_row, put_at, head_at, with_slot, with_copy, row_at, with_row, word_at, with_word};
ghost use Rattle.slots.specs.Laws.{SlotLaws, RowLaws};

use puts::words::{Head, SLOT};
use puts::{COUNTS, Clock, Put, words};
use std::ops::Range;

// The layout of the header: so many rows, each as long as a clock.
pub const ROWS: usize = 32;

pub const HEADER: usize = ROWS * COUNTS;

// Where slot `k` lies in a memory of `len` words, if it is there. A place, and not its words lent as `&mut`: the check proves no loan of a part of a slice.
fn slot_place(len: usize, k: usize) -> Option<Range<usize>>
    ensures { MatchOption result (len < slot_start k + slot_size) (λ place. (place ≡ record { start = slot_start k; end = slot_start k + slot_size }) × (slot_start k + slot_size ≤ len)) }
{
    if len < HEADER || k >= (len - HEADER) / SLOT {
        return None;
    }
    let start = HEADER + SLOT * k;
    Some(start..start + SLOT)
}

// Its words.
fn slot(mem: &[u64], k: usize) -> Option<&[u64; SLOT]>
    ensures { MatchOption result (has_slot k mem.now ≡ false) (λ part. (has_slot k mem.now ≡ true) × (part.now ≡ slot_at k mem.now)) }
{
    mem[slot_place(mem.len(), k)?].first_chunk()
}

// Where row `r` of the header lies, if it is there.
fn row_place(len: usize, r: usize) -> Option<Range<usize>>
    ensures { MatchOption result (r < row_count → len < header_size) (λ place. (place ≡ record { start = row_size * r; end = row_size * r + row_size }) × (r < row_count) × (header_size ≤ len)) }
{
    if r >= ROWS || len < HEADER {
        return None;
    }
    let start = COUNTS * r;
    Some(start..start + COUNTS)
}

// Its words.
fn row(mem: &[u64], r: usize) -> Option<&[u64; COUNTS]>
    ensures { MatchOption result (has_row r mem.now ≡ false) (λ words. (has_row r mem.now ≡ true) × (words.now ≡ take row_size (drop (row_size * r) mem.now))) }
{
    mem[row_place(mem.len(), r)?].first_chunk()
}

// What stands in slot `k`: none or a put.
#[tactic(auto, unfolding(crate::specs::Image::put_at))]
pub fn read_slot(mem: &[u64], k: usize) -> Option<Put>
    ensures { result ≡ put_at k mem.now }
{
    words::read_put(slot(mem, k)?)
}

// Its head alone.
#[tactic(auto, unfolding(crate::specs::Image::head_at))]
pub fn read_head(mem: &[u64], k: usize) -> Option<Head>
    ensures { result ≡ head_at k mem.now }
{
    words::read_head(slot(mem, k)?)
}

#[tactic(auto, using(crate::proofs::Slots::writes, crate::proofs::Slots::no_write))]
pub fn write_slot(mem: &mut [u64], k: usize, p: &Put)
    ensures { mem.new ≡ with_slot k (put_words p.now) mem.old }
{
    if let Some(place) = slot_place(mem.len(), k) {
        words::write_put(&mut mem[place], p);
    }
}

#[tactic(auto, using(crate::proofs::Slots::writes, crate::proofs::Slots::no_write))]
pub fn clear_slot(mem: &mut [u64], k: usize)
    ensures { mem.new ≡ with_slot k (replicate slot_size 0) mem.old }
{
    if let Some(place) = slot_place(mem.len(), k) {
        mem[place].fill(0);
    }
}

// What stands in slot `from` stands in slot `to` too.
#[tactic(auto, using(crate::proofs::Slots::writes, crate::proofs::Slots::no_write, crate::proofs::Slots::copies, crate::proofs::Slots::no_copy))]
pub fn copy_slot(mem: &mut [u64], from: usize, to: usize)
    ensures { mem.new ≡ with_copy from to mem.old }
{
    if let Some(there) = slot_place(mem.len(), from) {
        let mut part = [0; SLOT];
        part.copy_from_slice(&mem[there]);
        if let Some(here) = slot_place(mem.len(), to) {
            mem[here].copy_from_slice(&part);
        }
    }
}

// Row `r` of the header.
#[tactic(auto, unfolding(crate::specs::Image::row_at))]
pub fn read_row(mem: &[u64], r: usize) -> Clock
    ensures { result.counts ≡ row_at r mem.now }
{
    let counts = match row(mem, r) {
        Some(words) => *words,
        None => [0; COUNTS],
    };
    Clock { counts }
}

#[tactic(auto, using(crate::proofs::Rows::writes_row, crate::proofs::Rows::no_write, crate::proofs::Rows::row_missing))]
pub fn write_row(mem: &mut [u64], r: usize, row: &Clock)
    ensures { mem.new ≡ with_row r row.now.counts mem.old }
{
    if let Some(place) = row_place(mem.len(), r) {
        mem[place].copy_from_slice(&row.counts);
    }
}

// Word `i` of row `r`.
#[tactic(auto, using(crate::proofs::Rows::word_of_row, crate::proofs::Rows::word_of_none))]
pub fn read_word(mem: &[u64], r: usize, i: usize) -> u64
    ensures { result ≡ word_at r i mem.now }
{
    row(mem, r).and_then(|row| row.get(i)).copied().unwrap_or(0)
}

#[tactic(auto, using(crate::proofs::Rows::writes_word, crate::proofs::Rows::no_word_write, crate::proofs::Rows::word_missing))]
pub fn write_word(mem: &mut [u64], r: usize, i: usize, v: u64)
    ensures { mem.new ≡ with_word r i v mem.old }
{
    if let Some(place) = row_place(mem.len(), r) {
        if i < COUNTS {
            mem[place.start + i] = v;
        }
    }
}

// In the image of some slots each of these does to one slot what its name says, and to no other.
pub fn slot_laws()
    ensures { SlotLaws }
{}

// And in the image of some rows, to one row.
pub fn row_laws()
    ensures { RowLaws }
{}
