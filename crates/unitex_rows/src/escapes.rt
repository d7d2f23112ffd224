//! Bytes that are written with escapes.

ghost use Rattle.std.specs.Prelude.{◌<◌, IfOk};

use crate::malformed::Malformed;
use std::alloc::Global;

/// What was read of an escape.
#[derive(Clone, Copy, PartialEq, Eq)]
enum Escape {
    /// None is begun.
    None,
    /// Its backslash.
    Begun,
    /// The `x` of a byte.
    Byte,
    /// The first digit of a byte.
    Digit(u8),
}

/// The bytes of a text in which `\n`, `\r`, `\t`, `\0`, `\\` and `\xHH` each stand for one.
pub fn unescaped(alloc: Global, text: &str) -> Result<Vec<u8>, Malformed> {
    let mut bytes = Vec::new(alloc);
    let mut escape = Escape::None;
    for byte in text.as_bytes() {
        escape = step(&mut bytes, escape, *byte)?;
    }
    if escape != Escape::None {
        return Err(Malformed::BadEscape);
    }
    Ok(bytes)
}

/// Reads one more byte of the text.
fn step(bytes: &mut Vec<u8>, escape: Escape, byte: u8) -> Result<Escape, Malformed> {
    match escape {
        Escape::None if byte == b'\\' => return Ok(Escape::Begun),
        Escape::Begun if byte == b'x' => return Ok(Escape::Byte),
        Escape::Byte => return Ok(Escape::Digit(digit(byte)?)),
        Escape::None => bytes.push(byte)?,
        Escape::Begun => bytes.push(named(byte)?)?,
        Escape::Digit(high) => bytes.push(high.wrapping_mul(16).wrapping_add(digit(byte)?))?,
    }
    Ok(Escape::None)
}

/// The byte for which a backslash and this one stand.
fn named(byte: u8) -> Result<u8, Malformed> {
    match byte {
        b'n' => Ok(b'\n'),
        b'r' => Ok(b'\r'),
        b't' => Ok(b'\t'),
        b'0' => Ok(0),
        b'\\' => Ok(b'\\'),
        _ => Err(Malformed::BadEscape),
    }
}

/// The value of a digit of base 16.
fn digit(byte: u8) -> Result<u8, Malformed>
    ensures { IfOk result (λ value. value < 16) }
{
    match byte {
        b'0'..=b'9' => Ok(byte - b'0'),
        b'a'..=b'f' => Ok(byte - b'a' + 10),
        b'A'..=b'F' => Ok(byte - b'A' + 10),
        _ => Err(Malformed::BadEscape),
    }
}
