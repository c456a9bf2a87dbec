// The words of a line: numbers and values.
#![tactic(auto)]

ghost use Rattle.std.specs.Prelude.{ℕ, ◌+◌, ◌*◌, ◌<◌, ◌≤◌, IfOk, vec_items, decimal};
ghost use Rattle.words.specs.Text.{Byte, Bytes, Nibble, Reads, Word, Words, digits, hex, numbers_text, value_text};
ghost use Rattle.std.specs.Option.{option_map};
ghost use Rattle.std.specs.Char.{digit_char};

use std::alloc::{AllocError, Global};

// A number: decimal digits without a leading zero, below 2^64.
pub fn number(word: &str) -> Option<u64>
    ensures { Reads decimal Word word.now result }
{
    if word.starts_with('+') {
        return None;
    }
    if word.starts_with('0') && word.len() > 1 {
        return None;
    }
    word.parse::<u64>().ok()
}

// Numbers separated by one space, at least one.
pub fn numbers(heap: Global, text: &str) -> Result<Option<Vec<u64>>, AllocError>
    ensures { IfOk result (λ o. Reads numbers_text Words text.now (option_map vec_items o)) }
{
    let mut all = Vec::new(heap);
    for word in text.split(' ') {
        let Some(n) = number(word) else {
            return Ok(None);
        };
        all.push(n)?;
    }
    Ok(Some(all))
}

// What a small hexadecimal digit stands for. `char::to_digit` would take capitals too.
fn digit(byte: u8) -> Option<u8>
    ensures { Reads digit_char Nibble byte result }
{
    match byte {
        b'0'..=b'9' => Some(byte - b'0'),
        b'a'..=b'f' => Some(byte - b'a' + 10),
        _ => None,
    }
}

// The byte that two digits stand for.
fn pair(high: u8, low: u8) -> Option<u8>
    ensures { Reads digits Byte (high, low) result }
{
    let high = digit(high)?;
    let low = digit(low)?;
    Some(high * 16 + low)
}

// Two small hexadecimal digits for each byte.
fn hex_bytes(heap: Global, digits: &[u8]) -> Result<Option<Vec<u8>>, AllocError>
    ensures { IfOk result (λ o. Reads hex Bytes digits.now (option_map vec_items o)) }
{
    if digits.len() % 2 != 0 {
        return Ok(None);
    }
    let mut bytes = Vec::new(heap);
    for two in digits.chunks_exact(2) {
        let Some(byte) = pair(two[0], two[1]) else {
            return Ok(None);
        };
        bytes.push(byte)?;
    }
    Ok(Some(bytes))
}

// A value: two small hexadecimal digits for each byte; `-` is the value of no bytes.
pub fn value(heap: Global, word: &str) -> Result<Option<Vec<u8>>, AllocError>
    ensures { IfOk result (λ o. Reads value_text Bytes word.now (option_map vec_items o)) }
{
    if word == "-" {
        return Ok(Some(Vec::new(heap)));
    }
    if word.is_empty() {
        return Ok(None);
    }
    hex_bytes(heap, word.as_bytes())
}
