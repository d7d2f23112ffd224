//! Reading the numbers of a file, one after another.

ghost use Rattle.std.specs.Prelude.{◌≡◌, [], ◌∷◌, IfErr, IfOk};
ghost use Rattle.ux_image_reader.specs.Reading.{Passes, numbers_left};
ghost use Rattle.ux_image_reader.specs.declared.error.ImageError.TheVariants.{Short};

use crate::cursor::Cursor;
use crate::error::ImageError;

/// The number at the place, which moves behind it.
pub(crate) fn read_number(cursor: &mut Cursor<'_>) -> Result<u32, ImageError>
    ensures ok { IfOk result (λ number. Passes cursor.old cursor.new (number ∷ [])) }
    ensures err { IfErr result (λ error. (error ≡ Short) × (numbers_left cursor.old ≡ [])) }
{
    let rest = &cursor.bytes[cursor.place..];
    match rest.split_first_chunk::<4>() {
        Some((four, _)) => {
            cursor.place += 4;
            Ok(u32::from_le_bytes(*four))
        },
        None => Err(ImageError::Short),
    }
}
