//! The lines of which a content is put together.

use crate::escapes::unescaped;
use crate::malformed::Malformed;
use crate::named::{Named, bytes_of};
use std::alloc::Global;
use std::str;

/// The bytes that a line of content adds, or `None` where the line is none.
pub fn piece_of(alloc: Global, line: &str, texts: &[Named]) -> Result<Option<Vec<u8>>, Malformed> {
    let (mark, rest) = line.split_once(' ').unwrap_or((line, ""));
    let piece = match mark {
        "|" => with_line_feed(alloc, rest)?,
        "-" => Vec::from_slice(alloc, rest.as_bytes())?,
        "\\" => unescaped(alloc, rest)?,
        "*" => repeated(alloc, rest)?,
        "=" => shared(alloc, rest, texts)?,
        _ => return Ok(None),
    };
    Ok(Some(piece))
}

/// A line as it stands.
fn with_line_feed(alloc: Global, text: &str) -> Result<Vec<u8>, Malformed> {
    let mut bytes = Vec::from_slice(alloc, text.as_bytes())?;
    bytes.push(b'\n')?;
    Ok(bytes)
}

/// A number, and what stands so often.
fn repeated(alloc: Global, rest: &str) -> Result<Vec<u8>, Malformed> {
    let (number, text) = rest.split_once(' ').ok_or(Malformed::BadNumber)?;
    let count = number.parse::<u32>().map_err(|_| Malformed::BadNumber)?;
    let once = unescaped(alloc, text)?;
    let mut bytes = Vec::new(alloc);
    for _ in 0..count {
        bytes.extend_from_slice(once.as_slice())?;
    }
    Ok(bytes)
}

/// The name of a shared text, with an encoding or without.
fn shared(alloc: Global, rest: &str, texts: &[Named]) -> Result<Vec<u8>, Malformed> {
    let (name, encoding) = rest.split_once(" as ").unwrap_or((rest, ""));
    let bytes = bytes_of(texts, name).ok_or(Malformed::Unknown)?;
    match encoding {
        "" => Ok(Vec::from_slice(alloc, bytes)?),
        "utf-16le" => in_utf16(alloc, bytes, Order::Little),
        "utf-16be" => in_utf16(alloc, bytes, Order::Big),
        _ => Err(Malformed::BadEncoding),
    }
}

/// Which byte of a unit of UTF-16 comes first.
#[derive(Clone, Copy)]
enum Order {
    /// The low one.
    Little,
    /// The high one.
    Big,
}

/// A text of UTF-8 in UTF-16, without a mark.
fn in_utf16(alloc: Global, bytes: &[u8], order: Order) -> Result<Vec<u8>, Malformed> {
    let text = str::from_utf8(bytes).map_err(|_| Malformed::NoText)?;
    let mut units = Vec::new(alloc);
    for unit in text.encode_utf16() {
        let pair = match order {
            Order::Little => unit.to_le_bytes(),
            Order::Big => unit.to_be_bytes(),
        };
        units.extend_from_slice(&pair)?;
    }
    Ok(units)
}
