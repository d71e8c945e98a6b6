ghost use Rattle.std.specs.Prelude.{◌≡◌, ◌*◌, ◌<◌, ◌≤◌, ◌++◌, length, take, IfSome, Some, vec_items, OnOk};
ghost use Rattle.std.specs.Str.{IsAscii};
ghost use Rattle.hex_text.specs.Errors.{error_text};
ghost use Rattle.hex_text.specs.Hex.{HexRead, digit, digit_value, hex_text, is_blank};
ghost use Rattle.hex_text.specs.declared.hex.HexError.TheVariants.{NoMemory};

use std::alloc::{AllocError, AllocFailed, Global};
use std::error::Error;
use std::io::Write;
use std::{fmt, str};

// Why a text is no octets in hexadecimal.
#[derive(Clone, Copy, PartialEq, Eq, Debug)]
pub enum HexError {
    NotADigit(usize),
    HalfOctet,
    NoMemory,
}

impl fmt::Display for HexError {
    ghost output = { λ error. Some (error_text error) };

    fn fmt<W: fmt::Write>(&self, f: &mut fmt::Formatter<W>) -> fmt::Result {
        match self {
            HexError::NotADigit(at) => {
                write!(f, "no hexadecimal digit at character {at} of the input")
            }
            HexError::HalfOctet => write!(f, "the last octet has only one digit"),
            HexError::NoMemory => write!(f, "not enough memory"),
        }
    }
}

impl Error for HexError {}

impl<T: Drop> From<AllocFailed<T>> for HexError {
    ghost from_gives = { λ _ error. error ≡ NoMemory };

    fn from(_failed: AllocFailed<T>) -> Self {
        Self::NoMemory
    }
}

// The number that a hexadecimal digit stands for.
fn digit_value(c: u8) -> Option<u8>
    ensures value { result ≡ digit_value c }
    ensures small { IfSome result (λ d. d < 16) }
{
    match c {
        b'0'..=b'9' => Some(c - b'0'),
        b'a'..=b'f' => Some(c - b'a' + 10),
        b'A'..=b'F' => Some(c - b'A' + 10),
        _ => None,
    }
}

// Whether a character of the text is passed over.
fn is_blank(c: u8) -> bool
    ensures { result ≡ is_blank c }
{
    matches!(c, b' ' | b'\t' | b'\n' | b'\r')
}

// The octets of a hexadecimal text. Blanks are passed over.
pub fn read_hex(heap: Global, text: &[u8]) -> Result<Vec<u8>, HexError>
    ensures { HexRead vec_items text.now result }
{
    let mut octets = Vec::new(heap);
    let mut half = None;
    for (at, c) in text.iter().enumerate() {
        if is_blank(*c) {
            continue;
        }
        let Some(digit) = digit_value(*c) else {
            return Err(HexError::NotADigit(at));
        };
        half = match half {
            None => Some(digit),
            Some(high) => {
                octets.push(high * 16 + digit)?;
                None
            }
        };
    }
    match half {
        None => Ok(octets),
        Some(_) => Err(HexError::HalfOctet),
    }
}

// The digit of a number below 16.
fn hex_digit(n: u8) -> u8
    requires { n < 16 }
    ensures value { result ≡ digit n }
    ensures ascii { result < 128 }
{
    if n < 10 { b'0' + n } else { b'a' + (n - 10) }
}

// Puts the digits of octets, two each, at the front of the place.
fn put_digits(octets: &[u8], place: &mut [u8])
    requires { 2 * length octets.now ≤ length place.old }
    ensures digits { take (2 * length octets.now) place.new ≡ hex_text octets.now }
    ensures ascii { IsAscii (take (2 * length octets.now) place.new) }
    ensures size { length place.new ≡ length place.old }
{
    for (i, &octet) in octets.iter().enumerate() {
        place[2 * i] = hex_digit(octet / 16);
        place[2 * i + 1] = hex_digit(octet % 16);
    }
}

// How many octets are written at once: one by one it takes several times as long.
const PART: usize = 32;

// Octets that are shown in hexadecimal, two digits each.
#[derive(Clone, Copy)]
pub struct Hex<'a>(pub &'a [u8]);

impl fmt::Display for Hex<'_> {
    ghost output = { λ hex. Some (hex_text hex.0.now) };

    fn fmt<W: fmt::Write>(&self, f: &mut fmt::Formatter<W>) -> fmt::Result {
        let mut place = [0; 2 * PART];
        for part in self.0.chunks(PART) {
            put_digits(part, &mut place);
            let Ok(digits) = str::from_utf8(&place[..2 * part.len()]) else {
                unreachable!();
            };
            f.write_str(digits)?;
        }
        Ok(())
    }
}

// Adds octets to a text, two digits each.
pub fn push_hex(text: &mut Vec<u8>, octets: &[u8]) -> Result<(), AllocError>
    ensures { OnOk result (text.new.items ≡ text.old.items ++ hex_text octets.now) }
{
    write!(text, "{}", Hex(octets)).map_err(|_| AllocError)
}
