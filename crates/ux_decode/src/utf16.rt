//! Reading UTF-16, unit by unit. `specs/Decoding.antt` has the definitions.

ghost use Rattle.std.specs.Prelude.{◌≡◌, ◌<◌, ◌≤◌, ◌++◌, [], length, drop, IfOk, IfErr, MatchOption, string_bytes};
ghost use Rattle.std.specs.Char.{IsScalar};
ghost use Rattle.ux_decode.specs.Encoding.{unit_of, unit_bytes, units_of, char_bytes, BeginsUnit};
ghost use Rattle.ux_decode.specs.Decoding.{Spells, IsLone, RefusesUtf16};
ghost use Rattle.ux_decode.specs.declared.encoding.Encoding.TheVariants.{Utf16};

use crate::encoding::Order;
use crate::error::DecodeError;
use std::alloc::Global;

/// The text of a file in UTF-16 of this order, behind a mark of two bytes.
pub(crate) fn read_utf16(alloc: Global, order: Order, bytes: &[u8]) -> Result<String, DecodeError>
    requires { 2 ≤ length bytes.now }
    ensures ok { IfOk result (λ text. Spells (Utf16 order) (drop 2 bytes.now) (string_bytes text) []) }
    ensures err { IfErr result (RefusesUtf16 order bytes.now) }
{
    let mut rest = &bytes[2..];
    // Each unit is at least one byte of text.
    let mut text = String::with_capacity(alloc, rest.len() / 2)?;
    while let Some((unit, behind)) = split_unit(order, rest) {
        let Some((c, after)) = split_char(order, unit, behind) else {
            let place = bytes.len() - rest.len();
            return Err(DecodeError::LoneSurrogate { place });
        };
        text.push(c)?;
        rest = after;
    }
    if !rest.is_empty() {
        return Err(DecodeError::OddLength);
    }
    Ok(text)
}

/// The unit of the first two bytes, and what stands behind them.
fn split_unit(order: Order, bytes: &[u8]) -> Option<(u32, &[u8])>
    ensures { MatchOption result (length bytes.now < 2)
        (λ (unit, rest). BeginsUnit order bytes.now unit rest.now) }
{
    let [first, second, rest @ ..] = bytes else {
        return None;
    };
    Some((unit_of(order, *first, *second), rest))
}

/// The unit that two bytes are.
fn unit_of(order: Order, first: u8, second: u8) -> u32
    ensures { result ≡ unit_of order first second }
{
    match order {
        Order::Little => first as u32 + 256 * second as u32,
        Order::Big => 256 * first as u32 + second as u32,
    }
}

/// The character that begins with this unit, and what stands behind it, if there is one.
fn split_char(order: Order, unit: u32, rest: &[u8]) -> Option<(char, &[u8])>
    requires { unit < 0x1_0000 }
    ensures { MatchOption result (IsLone unit (units_of order rest.now))
        (λ (c, after). IsScalar c
        × (unit_bytes order unit ++ rest.now ≡ char_bytes order c ++ after.now)) }
{
    match char::from_u32(unit) {
        Some(c) => Some((c, rest)),
        None if unit < 0xDC00 => split_pair(order, unit, rest),
        None => None,
    }
}

/// The character of a pair, of which the first unit stands before the bytes.
fn split_pair(order: Order, high: u32, rest: &[u8]) -> Option<(char, &[u8])>
    requires from { 0xD800 ≤ high }
    requires below { high < 0xDC00 }
    ensures { MatchOption result (IsLone high (units_of order rest.now))
        (λ (c, after). IsScalar c
        × (unit_bytes order high ++ rest.now ≡ char_bytes order c ++ after.now)) }
{
    let Some((low, after)) = split_unit(order, rest) else {
        return None;
    };
    if low < 0xDC00 || 0xE000 <= low {
        return None;
    }
    let over = (high - 0xD800) * 0x400 + (low - 0xDC00);
    let c = char::from_u32(0x1_0000 + over).unwrap();
    Some((c, after))
}
