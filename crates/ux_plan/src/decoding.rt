//! The text of a file.

ghost use Rattle.std.specs.Prelude.{◌≡◌, ◌≤◌, ◌*◌, IfOk, IfErr, length, string_bytes};
ghost use Rattle.ux_base.specs.Outside.{IsLater};
ghost use Rattle.ux_decode.specs.Decoding.{IsTextOf};
ghost use Rattle.ux_plan.specs.Plans.{IsNoText, Reads, StopsFile, StopsTest, Tells, bytes_format, decoded, refusing};

use crate::reading::{read_bytes, refused};
use crate::stop::Stop;
use std::alloc::Global;
use ux_base::Folder;
use ux_decode::{DecodeError, decode};

/// A command's reasons, where files without a text have one among them.
pub trait OfDecode: Drop {
    ghost use Rattle.std.specs.Prelude.{◌≡◌};
    ghost use Rattle.ux_decode.specs.declared.error.DecodeError.{DecodeError};

    /// The reason of a file without a text.
    ghost decode_as: { DecodeError → Self };

    /// The same.
    fn of_decode(error: DecodeError) -> Self
        ensures { result ≡ decode_as error };
}

/// Reads a file, and decodes it.
pub fn read_decoded<F: Folder, R: OfDecode>(
    alloc: Global,
    name: &str,
    folder: &mut F,
) -> Result<String, Stop<R>>
    ensures later { IsLater (F.seen folder.old) (F.seen folder.new) }
    ensures ok { IfOk result (λ text. Reads (decoded R.decode_as bytes_format) name.now
        (F.seen folder.old).files (string_bytes text)) }
    ensures err { IfErr result (StopsFile (decoded R.decode_as bytes_format) name.now
        (F.seen folder.old) (F.seen folder.new)) }
{
    let bytes = read_bytes(alloc, name, folder)?;
    decode_file(alloc, name, bytes)
}

/// The text of the bytes of the file of this name.
pub fn decode_file<R: OfDecode>(
    alloc: Global,
    name: &str,
    bytes: Vec<u8>,
) -> Result<String, Stop<R>>
    ensures ok { IfOk result (λ text. IsTextOf bytes.items (string_bytes text)) }
    ensures size { IfOk result (λ text. 2 * length (string_bytes text) ≤ 3 * length bytes.items) }
    ensures err { IfErr result (StopsTest (refusing (λ file reason.
        (file ≡ name.now) × Tells R.decode_as (IsNoText bytes.items) reason))) }
{
    match decode(alloc, bytes) {
        Ok(text) => Ok(text),
        Err(DecodeError::NoMemory) => Err(Stop::NoMemory),
        Err(error) => Err(refused(alloc, name, R::of_decode(error))),
    }
}
