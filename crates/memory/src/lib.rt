// The memory of a replica: its layout, and opening it. All of the state is there, limits and the replica's own number too.
#![tactic(auto)]

ghost use Rattle.std.specs.Prelude.{◌≡◌, ℕ, ◌+◌, ◌*◌, ◌<◌, Bool, List, ◌++◌, length, Some, Ok, Decides, MatchResult, codes};
ghost use Rattle.model.specs.Limits.{Limits as ModelLimits};
ghost use Rattle.model.specs.Replica.{Replica as ModelReplica, new_replica};
ghost use Rattle.memory.specs.Layout.{code_limits, model_limits, InRange, layout_of, total, Room, out_of_range};
ghost use Rattle.memory.specs.Image.{encode};
ghost use Rattle.memory.specs.Valid.{Valid};
ghost use Rattle.memory.specs.Laws.{Opening, HeaderSays, CameIsSound, WordsOfLayout, ImageSize, WordsFit, ImageFaithful, RegionLaws};
ghost use Rattle.memory.specs.State.{StateRead, StateWritten};

use puts::event::Refusal;
use puts::words::SLOT;
use puts::{COUNTS, Clock};
use slots::{HEADER, read_row, write_row};
use std::error::Error;
use std::fmt;

// The limits at opening.
#[derive(Clone, Copy, PartialEq, Eq)]
pub struct Limits {
    pub replicas: usize,
    pub keys: usize,
    pub log: usize,
    pub waiting: usize,
}

// A region of slots: the first, and how many. No slices: the memory is one lent slice, whose every word the contracts name.
#[derive(Clone, Copy)]
pub struct Region {
    pub base: usize,
    pub count: usize,
}

// The regions of a replica's memory.
#[derive(Clone, Copy)]
pub struct Layout {
    pub keys: Region,
    pub log: Region,
    pub waiting: Region,
}

// No replica can be opened so: the limits or its number are out of range, or the memory is too small.
#[derive(Clone, Copy, Debug, PartialEq, Eq)]
pub struct OutOfRange;

impl fmt::Display for OutOfRange {
    ghost output = { λ _. Some (codes "out of range") };

    fn fmt<W: fmt::Write>(&self, f: &mut fmt::Formatter<W>) -> fmt::Result {
        write!(f, "out of range")
    }
}

impl Error for OutOfRange {}

impl From<OutOfRange> for Refusal {
    ghost from_gives = { λ _ refusal. refusal ≡ out_of_range };

    fn from(_e: OutOfRange) -> Refusal {
        Refusal {
            number: 2,
            place: 0,
        }
    }
}

// The most of each, beside as many replicas as a clock has counts.
const KEYS_MOST: usize = 4096;

const LOG_MOST: usize = 1024;

const WAITING_MOST: usize = 1024;

// The rows of the header: sizes and limits, the clock, then what each replica is known to have.
pub const SIZES_ROW: usize = 0;

pub const CLOCK_ROW: usize = 1;

pub const KNOWN_ROW: usize = 2;

// The words of the first row: the sizes of queue and log, who this is, the limits.
pub const WAITING_SIZE: usize = 0;

pub const LOG_SIZE: usize = 1;

pub const ME: usize = 2;

pub const REPLICAS: usize = 3;

pub const KEYS: usize = 4;

pub const LOG: usize = 5;

pub const WAITING: usize = 6;

impl Limits {
    // Where the regions lie.
    pub fn layout(self) -> Layout
        requires { InRange self }
        ensures { result ≡ layout_of self }
    {
        Layout {
            keys: Region {
                base: 0,
                count: self.keys,
            },
            log: Region {
                base: self.keys,
                count: self.log,
            },
            waiting: Region {
                base: self.keys + self.log,
                count: self.waiting,
            },
        }
    }

    // Each is in range.
    pub fn in_range(self) -> bool
        ensures { Decides result (InRange self) }
    {
        (1..=COUNTS).contains(&self.replicas)
            && (1..=KEYS_MOST).contains(&self.keys)
            && (1..=LOG_MOST).contains(&self.log)
            && self.waiting <= WAITING_MOST
    }
}

// How many words such a replica takes, if `len` words are enough. Limits and number stay apart, as `open` takes them: a struct of both would be made and taken apart at each call.
fn words_for(limits: Limits, me: usize, len: usize) -> Result<usize, OutOfRange>
    ensures { MatchResult result (λ n. (n ≡ total limits) × ((m : List ℕ) → length m ≡ len → Room limits me m)) (λ _. (m : List ℕ) → length m ≡ len → Room limits me m → ⊥) }
{
    if !limits.in_range() || me >= limits.replicas {
        return Err(OutOfRange);
    }
    let n = HEADER + SLOT * (limits.keys + limits.log + limits.waiting);
    if n > len {
        return Err(OutOfRange);
    }
    Ok(n)
}

// A new replica in all of a part of the memory.
fn start(part: &mut [u64], limits: Limits, me: usize)
    ensures { InRange limits → length part.old ≡ total limits → (can : ℕ → Bool) → part.new ≡ encode (model_limits can limits) (new_replica (model_limits can limits) me) }
{
    part.fill(0);
    let mut row = [0; COUNTS];
    row[ME] = me as u64;
    row[REPLICAS] = limits.replicas as u64;
    row[KEYS] = limits.keys as u64;
    row[LOG] = limits.log as u64;
    row[WAITING] = limits.waiting as u64;
    write_row(part, SIZES_ROW, &Clock { counts: row });
}

// Opens replica `me` in the first words of the memory. If limits or `me` are out of range, or the memory is too small, the memory stays as it is.
pub fn open(mem: &mut [u64], limits: Limits, me: usize) -> Result<Layout, OutOfRange>
    ensures { Opening limits me mem.old mem.new result }
{
    let n = words_for(limits, me, mem.len())?;
    start(&mut mem[..n], limits, me);
    Ok(limits.layout())
}

// The limits of the replica whose memory this is, and its number; or a refusal, if it is no replica's.
pub fn limits_of(mem: &[u64]) -> Result<(Limits, usize), OutOfRange>
    ensures any { HeaderSays mem.now result }
    ensures image { (l : ModelLimits) (s : ModelReplica) (rest : List ℕ) → Valid l s → mem.now ≡ encode l s ++ rest → result ≡ Ok (code_limits l, s.delivery.me) }
{
    let row = read_row(mem, SIZES_ROW).counts;
    let me = row[ME] as usize;
    let limits = Limits {
        replicas: row[REPLICAS] as usize,
        keys: row[KEYS] as usize,
        log: row[LOG] as usize,
        waiting: row[WAITING] as usize,
    };
    words_for(limits, me, mem.len())?;
    Ok((limits, me))
}

// A replica by value over its lent memory.
#[derive(Drop)]
pub struct Replica<'a> {
    pub mem: &'a mut [u64],
}

impl<'a> Replica<'a> {
    // Opened, or handed back as it was.
    pub fn opened(self, limits: Limits, me: usize) -> (Replica<'a>, Result<Layout, OutOfRange>)
        ensures { Opening limits me self.entry.mem.now result.0.mem.now result.1 }
    {
        let r = open(self.mem, limits, me);
        (self, r)
    }
}

// WHAT IS PROVED OF THE LAYOUT AND THE IMAGE. The words of a layout: 32 for each key, log entry and waiting entry, and 512.
pub fn words_of_layout()
    ensures { WordsOfLayout }
{}

// An image has exactly these words.
pub fn image_size()
    ensures { ImageSize }
{}

// Each below 2^64.
pub fn words_fit()
    ensures { WordsFit }
{}

// Two valid states with the same image are the same.
pub fn image_faithful()
    ensures { ImageFaithful }
{}

// Writing slot i of a region changes that element and nothing else.
pub fn region_laws()
    ensures { RegionLaws }
{}

// What a read of the memory says of the state, in any state that fits.
pub fn state_read()
    ensures { StateRead }
{}

// And what a write to it makes of the state.
pub fn state_written()
    ensures { StateWritten }
{}

// What passes the range checks has its place in a slot.
pub fn came_is_sound()
    ensures { CameIsSound }
{}
