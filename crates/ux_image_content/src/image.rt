//! Images, read whole.

ghost use Rattle.std.specs.Prelude.{◌≡◌, ◌⊎◌, ◌<◌, ◌^◌, IfErr, IfOk, length};
ghost use Rattle.ux_dawg.specs.Paths.{MakeAutomaton};
ghost use Rattle.ux_image_content.specs.Files.{IsImageFile, RefusesImage};
ghost use Rattle.ux_image_reader.specs.declared.error.ImageError.{ImageError as ErrorData};
ghost use Rattle.ux_image_reader.specs.declared.error.ImageError.TheVariants.{NoMemory};

use std::alloc::Global;
use ux_image_lists::{Image, count_letters, read_layout};
use ux_image_reader::ImageError;

/// How many letters the forms may have together, each form counted for each of its codes.
const MOST_LETTERS: u64 = 536_870_912;

/// The image that a file is, or the first fault of the file. The time is linear in the file.
///
/// A lemma too long never comes beside too many letters: what a code adds, and the form, stand in
/// the file, which is shorter than that.
pub fn read_image(alloc: Global, bytes: &[u8]) -> Result<Image, ImageError>
    requires { length bytes.now < 2 ^ 32 }
    ensures ok { IfOk result (IsImageFile bytes.now) }
    ensures automaton { IfOk result (λ image. MakeAutomaton image.states) }
    ensures exact { IfOk result (λ _. (error : ErrorData) → RefusesImage bytes.now error → ⊥) }
    ensures err { IfErr result (λ error. (error ≡ NoMemory) ⊎ RefusesImage bytes.now error) }
{
    let image = read_layout(alloc, bytes)?;
    if count_letters(alloc, &image)? > MOST_LETTERS {
        return Err(ImageError::TooMany);
    }
    Ok(image)
}
