// Bytes as hexadecimal digits, two a byte.
ghost use Rattle.std.specs.Prelude.{◌≡◌, ◌<◌, ◌++◌, IfOk, Ok, string_bytes, OnOk};
ghost use Rattle.std.specs.Char.{digit_char};
ghost use Rattle.text.specs.Spelling.{Spells};
ghost use Rattle.station.specs.Hex.{hex_value, Small, Steps, hex_step, Reads, hex_of, byte_hex, hex_line};

use super::fault::{HexError, HexFault};
use std::alloc::{AllocError, Global};
use text::is_blank;

// The value of a digit, absent for another character.
fn digit_of(c: u8) -> Option<u8>
    ensures value { result ≡ hex_value c }
    ensures small { Small result }
{
    // The check proves that no bit is lost: `try_from` would add a case that cannot come.
    char::from(c).to_digit(16).map(|digit| digit as u8)
}

// Takes one more character after the bytes so far and the first digit of the next byte, if it is read; answers that digit then.
fn take(bytes: &mut Vec<u8>, half: Option<u8>, c: u8) -> Result<Option<u8>, HexError>
    requires { Small half }
    ensures value { Steps (hex_step (bytes.old.items, half) c) bytes.new.items result }
    ensures small { IfOk result Small }
{
    if is_blank(c) {
        return match half {
            None => Ok(None),
            Some(_) => Err(HexError::Fault(HexFault::Odd)),
        };
    }
    let digit = digit_of(c).ok_or(HexFault::Digit)?;
    match half {
        None => Ok(Some(digit)),
        Some(first) => {
            bytes.push(first * 16 + digit)?;
            Ok(None)
        }
    }
}

// The bytes of a line: two digits a byte, blanks between bytes; refuses any other character, and a byte of one digit.
pub fn hex_bytes(heap: Global, line: &[u8]) -> Result<Vec<u8>, HexError>
    ensures { Reads (hex_of line.now) result }
{
    let mut bytes = Vec::new(heap);
    let mut half = None;
    for c in line {
        half = take(&mut bytes, half, *c)?;
    }
    match half {
        None => Ok(bytes),
        Some(_) => Err(HexError::Fault(HexFault::Odd)),
    }
}

// Std's from_digit would add a case that cannot come.
fn digit_char(digit: u8) -> char
    requires { digit < 16 }
    ensures value { result ≡ digit_char digit }
    ensures ascii { result < 128 }
{
    if digit < 10 {
        char::from(b'0' + digit)
    } else {
        char::from(b'a' + (digit - 10))
    }
}

// Adds a blank and the two digits of a byte: by pushes, since a `write!` of {:02x} for each byte costs a frame's line half as much again.
fn add_byte(text: &mut String, b: u8) -> Result<(), AllocError>
    ensures { OnOk result (string_bytes text.new ≡ string_bytes text.old ++ byte_hex b) }
{
    text.push(' ')?;
    text.push(digit_char(b / 16))?;
    text.push(digit_char(b % 16))
}

// The bytes as text, a blank before each. It reads back as these bytes, which no Display could promise.
pub fn hex_text(heap: Global, bytes: &[u8]) -> Result<String, AllocError>
    ensures text { Spells result (hex_line bytes.now) }
    ensures back { IfOk result (λ s. hex_of (string_bytes s) ≡ Ok bytes.now) }
{
    let mut text = String::new(heap);
    for b in bytes {
        add_byte(&mut text, *b)?;
    }
    Ok(text)
}
