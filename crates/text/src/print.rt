// Puts, events and answers as text.
ghost use Rattle.text.specs.Printed.{answer_text, event_text, put_text, puts_text};
ghost use Rattle.words.specs.Text.{counts_text, hex, value_text};
ghost use Rattle.std.specs.Prelude.{◌≡◌, ◌<◌, ◌≤◌, Some, length};
ghost use Rattle.std.specs.Char.{digit_char};

use crate::event::{Answer, Event, Put};
use std::fmt;
use std::str::from_utf8;

// So many bytes of a value are printed at once: no value of a replica is longer.
const CHUNK: usize = 64;

// A space and a number, for each number.
#[derive(Clone, Copy)]
pub struct CountsText<'a>(pub &'a [u64]);

// A value: two small hexadecimal digits for each byte, or `-` for no bytes.
#[derive(Clone, Copy)]
pub struct ValueText<'a>(pub &'a [u8]);

// A put: its key, its value, its replica, and the clock that its replica had before.
#[derive(Clone, Copy)]
pub struct PutText<'a>(pub &'a Put);

// Puts, joined by ` ; `, behind a space.
#[derive(Clone, Copy)]
struct PutsText<'a>(&'a [Put]);

// An event at a replica, as a line of the script.
#[derive(Clone, Copy)]
pub struct EventText<'a> {
    pub replica: u64,
    pub event: &'a Event,
}

// An answer, as it stands behind ` -> `.
#[derive(Clone, Copy)]
pub struct AnswerText<'a>(pub &'a Answer);

impl fmt::Display for CountsText<'_> {
    ghost output = { λ c. Some (counts_text c.0.now) };

    fn fmt<W: fmt::Write>(&self, f: &mut fmt::Formatter<W>) -> fmt::Result {
        for count in self.0 {
            write!(f, " {count}")?;
        }
        Ok(())
    }
}

impl fmt::Display for ValueText<'_> {
    ghost output = { λ v. Some (value_text v.0.now) };

    #[tactic(auto, using(words::proofs::Values::value_dash, words::proofs::Values::value_hex))]
    fn fmt<W: fmt::Write>(&self, f: &mut fmt::Formatter<W>) -> fmt::Result {
        if self.0.is_empty() {
            return f.write_str("-");
        }
        let mut digits = [0u8; 2 * CHUNK];
        for chunk in self.0.chunks(CHUNK) {
            f.write_str(hex_text(chunk, &mut digits))?;
        }
        Ok(())
    }
}

// A small hexadecimal digit.
fn digit(d: u8) -> u8
    requires { d < 16 }
    ensures { result ≡ digit_char d }
{
    if d < 10 { b'0' + d } else { b'a' + (d - 10) }
}

// Two digits for each byte, which are written to the front of `digits`.
fn hex_text<'a>(bytes: &[u8], digits: &'a mut [u8; 2 * CHUNK]) -> &'a str
    requires { length bytes.now ≤ CHUNK }
    ensures { result.now ≡ hex bytes.now }
{
    for (i, &byte) in bytes.iter().enumerate() {
        digits[2 * i] = digit(byte / 16);
        digits[2 * i + 1] = digit(byte % 16);
    }
    let Ok(text) = from_utf8(&digits[..2 * bytes.len()]) else {
        unreachable!();
    };
    text
}

impl fmt::Display for PutText<'_> {
    ghost output = { λ p. Some (put_text p.0.now) };

    fn fmt<W: fmt::Write>(&self, f: &mut fmt::Formatter<W>) -> fmt::Result {
        let Put {
            key,
            value,
            from,
            seen,
        } = self.0;
        let value = ValueText(value.as_slice());
        let seen = CountsText(seen.as_slice());
        write!(f, "{key} {value} {from}{seen}")
    }
}

impl fmt::Display for PutsText<'_> {
    ghost output = { λ p. Some (puts_text p.0.now) };

    fn fmt<W: fmt::Write>(&self, f: &mut fmt::Formatter<W>) -> fmt::Result {
        if let Some((first, rest)) = self.0.split_first() {
            write!(f, " {}", PutText(first))?;
            for put in rest {
                write!(f, " ; {}", PutText(put))?;
            }
        }
        Ok(())
    }
}

impl fmt::Display for EventText<'_> {
    ghost output = { λ e. Some (event_text e.replica e.event.now) };

    fn fmt<W: fmt::Write>(&self, f: &mut fmt::Formatter<W>) -> fmt::Result {
        let replica = self.replica;
        match self.event {
            Event::Put { key, value } => {
                let value = ValueText(value.as_slice());
                write!(f, "{replica} put {key} {value}")
            }
            Event::Get { key } => write!(f, "{replica} get {key}"),
            Event::Came { put } => write!(f, "{replica} came {}", PutText(put)),
            Event::Has {
                replica: from,
                clock,
            } => {
                let counts = CountsText(clock.as_slice());
                write!(f, "{replica} has {from}{counts}")
            }
            Event::Tell => write!(f, "{replica} tell"),
        }
    }
}

impl fmt::Display for AnswerText<'_> {
    ghost output = { λ a. Some (answer_text a.0.now) };

    fn fmt<W: fmt::Write>(&self, f: &mut fmt::Formatter<W>) -> fmt::Result {
        match self.0 {
            Answer::Refused { refusal } => {
                write!(f, "refused {} {}", refusal.number, refusal.place)
            }
            Answer::Puts { puts } => write!(f, "puts{}", PutsText(puts.as_slice())),
            Answer::Value { put: None } => f.write_str("none"),
            Answer::Value { put: Some(put) } => write!(f, "value {}", PutText(put)),
            Answer::Clock { clock } => write!(f, "clock{}", CountsText(clock.as_slice())),
        }
    }
}
