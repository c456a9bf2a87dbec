// A put in the words of a slot.
ghost use Rattle.std.specs.Prelude.{◌≡◌, ◌+◌, ◌-◌, ◌*◌, ◌<◌, ◌≤◌, length};
ghost use Rattle.model.specs.Limits.{value_most};
ghost use Rattle.puts.specs.Words.{slot_size, value_words, word, packed, unpacked, put_words, put_in, head_in, if_put};

use crate::{COUNTS, Clock, Put, Text, VALUE_MOST};
use std::array;

// The layout of a slot: how many words, and where each part begins.
pub const SLOT: usize = 32;

const FORM: usize = 0;

const FROM: usize = 1;

const SEEN: usize = 2;

const SPARE: usize = SEEN + COUNTS;

const KEY: usize = 20;

const LENGTH: usize = 21;

const VALUE: usize = 22;

const VALUE_WORDS: usize = 8;

const END: usize = VALUE + VALUE_WORDS;

// The form of a slot with a put; that of an empty one is 0. A number, since it is a word of the memory's layout.
const PUT: u64 = 1;

// Of a put: whose it is, and its number.
#[derive(Clone, Copy)]
pub struct Head {
    pub from: u64,
    pub number: u64,
}

fn pack(bytes: &[u8; VALUE_MOST]) -> [u64; VALUE_WORDS]
    ensures { result ≡ packed bytes.now }
{
    let (chunks, _) = bytes.as_chunks::<8>();
    array::from_fn(|k| u64::from_le_bytes(chunks[k]))
}

fn unpack(words: &[u64]) -> [u8; VALUE_MOST]
    requires { length words.now ≡ value_words }
    ensures { result ≡ unpacked words.now }
{
    let mut bytes = [0; VALUE_MOST];
    for (k, word) in words.iter().enumerate() {
        bytes[8 * k..8 * k + 8].copy_from_slice(&word.to_le_bytes());
    }
    bytes
}

// Writes a put into a part of the memory.
pub fn write_put(part: &mut [u64], p: &Put)
    requires { length part.old ≡ slot_size }
    ensures { part.new ≡ put_words p.now }
{
    part[FORM] = PUT;
    part[FROM] = p.from;
    part[SEEN..SPARE].copy_from_slice(&p.seen.counts);
    part[SPARE..VALUE].copy_from_slice(&[0, 0, p.key, p.value.len as u64]);
    part[VALUE..END].copy_from_slice(&pack(&p.value.bytes));
    part[END..SLOT].copy_from_slice(&[0; SLOT - END]);
}

// The put that the part holds, if it holds one.
pub fn read_put(part: &[u64]) -> Option<Put>
    requires { length part.now ≡ slot_size }
    ensures { result ≡ if_put part.now (put_in part.now) }
{
    if part[FORM] != PUT {
        return None;
    }
    let mut counts = [0; COUNTS];
    counts.copy_from_slice(&part[SEEN..SPARE]);
    let value = Text {
        len: part[LENGTH] as usize,
        bytes: unpack(&part[VALUE..END]),
    };
    Some(Put {
        from: part[FROM],
        seen: Clock { counts },
        key: part[KEY],
        value,
    })
}

// Its head alone.
pub fn read_head(part: &[u64]) -> Option<Head>
    requires { length part.now ≡ slot_size }
    ensures { result ≡ if_put part.now (head_in part.now) }
{
    if part[FORM] != PUT {
        return None;
    }
    let from = part[FROM];
    let before = part[SEEN..SPARE].get(from as usize).copied().unwrap_or(0);
    Some(Head {
        from,
        number: before.wrapping_add(1),
    })
}
