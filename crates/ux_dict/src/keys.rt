//! Keys of forms, by which entries are found without a look at their forms.
//!
//! A key is the first eight bytes of a form as a number. Keys stand next to each other, so that a
//! search through them is quick, and it leaves few forms to look at.

ghost use Rattle.std.specs.Prelude.{◌≡◌, ◌++◌, IfOk, map, get_or};
ghost use Rattle.ux_dict.specs.Keys.{number_of, low_key, high_key, key_of, key_rank};

use crate::stored::Stored;
use std::alloc::{AllocError, Global};

/// The keys of the entries.
pub(crate) fn keys_of(alloc: Global, entries: &[Stored]) -> Result<Vec<u64>, AllocError>
    ensures { IfOk result (λ keys. keys.items ≡ map key_of entries.now) }
{
    let mut keys = Vec::with_capacity(alloc, entries.len())?;
    for entry in entries {
        keys.push(lowest(entry.form().as_bytes(), &[]))?;
    }
    Ok(keys)
}

/// The lowest key of a form that begins with these bytes, one behind the other.
pub(crate) fn lowest(front: &[u8], more: &[u8]) -> u64
    ensures { result ≡ low_key (front.now ++ more.now) }
{
    number(front, more, 0)
}

/// The highest key of a form that begins with these bytes, one behind the other.
pub(crate) fn highest(front: &[u8], more: &[u8]) -> u64
    ensures { result ≡ high_key (front.now ++ more.now) }
{
    number(front, more, 255)
}

/// 0, 1 or 2 where the key is below two others, between them or above.
pub(crate) fn rank_between(key: u64, low: u64, high: u64) -> usize
    ensures { result ≡ key_rank low high key }
{
    if key < low {
        0
    } else if key <= high {
        1
    } else {
        2
    }
}

/// The first eight bytes as a number, where a missing one counts as given.
fn number(front: &[u8], more: &[u8], missing: u8) -> u64
    ensures { result ≡ number_of missing 8 0 (front.now ++ more.now) }
{
    let mut number = 0;
    for place in 0..8 {
        number = number * 256 + u64::from(byte_at(front, more, place, missing));
    }
    number
}

fn byte_at(front: &[u8], more: &[u8], place: usize, missing: u8) -> u8
    ensures { result ≡ get_or (front.now ++ more.now) place missing }
{
    if place < front.len() {
        return front[place];
    }
    match more.get(place - front.len()) {
        Some(byte) => *byte,
        None => missing,
    }
}
