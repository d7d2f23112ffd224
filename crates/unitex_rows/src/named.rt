//! Bytes by name: the files of a row, and the texts that rows share.

ghost use Rattle.std.specs.Prelude.{◌≡◌, IfOk, option_copied, string_bytes};
ghost use Rattle.ux_base.specs.Outside.{file_named, files_of};

use crate::malformed::Malformed;
use std::alloc::{AllocError, Global};

/// A name, and the bytes that it stands for.
pub type Named = (String, Vec<u8>);

/// The bytes of this name.
pub fn bytes_of<'a>(all: &'a [Named], name: &str) -> Option<&'a [u8]>
    ensures { option_copied result ≡ file_named name.now (files_of all.now) }
{
    for (other, bytes) in all {
        if other.as_str() == name {
            return Some(bytes.as_slice());
        }
    }
    None
}

/// Begins the bytes of a name, which stands once.
pub fn begin(alloc: Global, all: &mut Vec<Named>, name: &str) -> Result<(), Malformed> {
    if name.is_empty() {
        return Err(Malformed::NoName);
    }
    if bytes_of(all.as_slice(), name).is_some() {
        return Err(Malformed::Twice);
    }
    all.push((String::from_str(alloc, name)?, Vec::new(alloc)))?;
    Ok(())
}

/// Adds to the bytes of the last name.
pub fn extend_last(all: &mut Vec<Named>, bytes: &[u8]) -> Result<(), Malformed> {
    match all.last_mut() {
        Some(last) => Ok(last.1.extend_from_slice(bytes)?),
        None => Err(Malformed::Misplaced),
    }
}

/// A copy.
pub fn copy_of(alloc: Global, named: &Named) -> Result<Named, AllocError>
    ensures name { IfOk result (λ copy. string_bytes copy.0 ≡ string_bytes named.now.0) }
    ensures bytes { IfOk result (λ copy. copy.1.items ≡ named.now.1.items) }
{
    let name = String::from_str(alloc, named.0.as_str())?;
    Ok((name, Vec::from_slice(alloc, named.1.as_slice())?))
}
