// A line of a script to a command.
#![tactic(auto)]

ghost use Rattle.script.specs.Commands.{CanCommand, CanDeed, CanLimits, command_text, deed_words, limits_text};
ghost use Rattle.std.specs.Prelude.{IfOk};
ghost use Rattle.words.specs.Text.{Reads};

mod read;

use memory::Limits;
use read::{read_event, read_two};
use std::alloc::{AllocError, Global};
use text::event::Event;
use words::{number, numbers, value};

// What is done at a replica: an event, given whole, by its bytes, or by the put that comes; or it asks another.
#[derive(Drop)]
pub enum Deed {
    Event { event: Event },
    Bytes { bytes: Vec<u8> },
    From { maker: u64, number: u64 },
    Asks { asked: u64 },
}

// A line of a script.
#[derive(Drop)]
pub enum Command {
    Open { limits: Limits },
    At { replica: u64, deed: Deed },
    Round,
}

// The command that a line is, or none where it cannot be read.
pub fn read_command(heap: Global, line: &str) -> Result<Option<Command>, AllocError>
    ensures { IfOk result (λ o. Reads command_text CanCommand line.now o) }
{
    if line == "round" {
        return Ok(Some(Command::Round));
    }
    let Some((first, rest)) = line.split_once(' ') else {
        return Ok(None);
    };
    if first == "open" {
        let Some(limits) = read_limits(heap, rest)? else {
            return Ok(None);
        };
        return Ok(Some(Command::Open { limits }));
    }
    let Some(replica) = number(first) else {
        return Ok(None);
    };
    let Some(deed) = read_deed(heap, rest)? else {
        return Ok(None);
    };
    Ok(Some(Command::At { replica, deed }))
}

fn read_limits(heap: Global, text: &str) -> Result<Option<Limits>, AllocError>
    ensures { IfOk result (λ o. Reads limits_text CanLimits text.now o) }
{
    let Some(all) = numbers(heap, text)? else {
        return Ok(None);
    };
    let Ok(four) = <[u64; 4]>::try_from(all.as_slice()) else {
        return Ok(None);
    };
    let [replicas, keys, log, waiting] = four;
    Ok(Some(Limits {
        replicas: replicas as usize,
        keys: keys as usize,
        log: log as usize,
        waiting: waiting as usize,
    }))
}

// What is done at a replica, behind its number.
fn read_deed(heap: Global, text: &str) -> Result<Option<Deed>, AllocError>
    ensures { IfOk result (λ o. Reads deed_words CanDeed text.now o) }
{
    if let Some(event) = read_event(heap, text)? {
        return Ok(Some(Deed::Event { event }));
    }
    let Some((verb, rest)) = text.split_once(' ') else {
        return Ok(None);
    };
    match verb {
        "bytes" => {
            let Some(bytes) = value(heap, rest)? else {
                return Ok(None);
            };
            Ok(Some(Deed::Bytes { bytes }))
        }
        "from" => {
            let Some((maker, number)) = read_two(rest) else {
                return Ok(None);
            };
            Ok(Some(Deed::From { maker, number }))
        }
        "asks" => Ok(number(rest).map(|asked| Deed::Asks { asked })),
        _ => Ok(None),
    }
}
