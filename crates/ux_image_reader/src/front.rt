//! The front of an image: all that stands before its lists of codes.

ghost use Rattle.std.specs.Prelude.{◌≡◌, ◌⊎◌, IfErr, IfOk};
ghost use Rattle.ux_dawg.specs.Paths.{MakeAutomaton};
ghost use Rattle.ux_image_reader.specs.Fronts.{IsFrontOf, RefusesFront};
ghost use Rattle.ux_image_reader.specs.Layout.{HasMagic};
ghost use Rattle.ux_image_reader.specs.declared.error.ImageError.{ImageError as ErrorData};
ghost use Rattle.ux_image_reader.specs.declared.error.ImageError.TheVariants.{NoMemory};

use crate::cursor::Cursor;
use crate::error::ImageError;
use crate::numbers::read_number;
use crate::places::accept_states;
use crate::states::read_states;
use std::alloc::Global;
use ux_dawg::States;

/// A version of the format.
#[derive(Clone, Copy, Debug, PartialEq, Eq)]
pub enum Version {
    /// Each code has one pair.
    One,
    /// Each code has a count of pairs.
    Two,
}

/// What stands before the lists of codes.
#[derive(Debug, Drop)]
pub struct Front {
    /// The version.
    pub version: Version,
    /// The states, by number. The last one is the root.
    pub states: States,
    /// How many lists of codes there are.
    pub lists: u32,
    /// The place of the byte at which the lists begin.
    pub end: usize,
}

/// The first eight bytes of version 1.
const MAGIC_ONE: &[u8] = b"UXUDI\x01\r\n";

/// The first eight bytes of version 2.
const MAGIC_TWO: &[u8] = b"UXUDI\x02\r\n";

/// The front of an image, or the first fault of the file. The time is linear in the file, and no more
/// room is taken than what was read needs, whatever its counts say.
pub fn read_front(alloc: Global, bytes: &[u8]) -> Result<Front, ImageError>
    ensures ok { IfOk result (IsFrontOf bytes.now) }
    ensures automaton { IfOk result (λ front. MakeAutomaton front.states) }
    ensures exact { IfOk result (λ _. (error : ErrorData) → RefusesFront bytes.now error → ⊥) }
    ensures err { IfErr result (λ error. (error ≡ NoMemory) ⊎ RefusesFront bytes.now error) }
{
    let version = read_version(bytes)?;
    let mut cursor = Cursor { bytes, place: 8 };
    let count = read_number(&mut cursor)?;
    if count == 0 {
        return Err(ImageError::BadState { offset: 8 });
    }
    let lists = read_number(&mut cursor)?;
    let states = read_states(alloc, count, lists, &mut cursor)?;
    accept_states(alloc, lists, &states)?;
    Ok(Front {
        version,
        states,
        lists,
        end: cursor.place,
    })
}

/// The version whose magic the bytes begin with.
fn read_version(bytes: &[u8]) -> Result<Version, ImageError>
    ensures ok { IfOk result (λ version. HasMagic version bytes.now) }
    ensures err { IfErr result (RefusesFront bytes.now) }
{
    let front = &bytes[..bytes.len().min(8)];
    let version = if MAGIC_ONE.starts_with(front) {
        Version::One
    } else if MAGIC_TWO.starts_with(front) {
        Version::Two
    } else {
        return Err(ImageError::BadMagic);
    };
    if front.len() < 8 {
        return Err(ImageError::Short);
    }
    Ok(version)
}
