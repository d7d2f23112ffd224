//! The content of an image.

ghost use Rattle.std.specs.Prelude.{◌≡◌, ◌⊎◌, ◌<◌, ◌^◌, All, IfErr, IfOk, List, length, ℕ};
ghost use Rattle.ux_dawg.specs.Paths.{MakeAutomaton};
ghost use Rattle.ux_dela.specs.Sound.{IsSound};
ghost use Rattle.ux_image_content.specs.Contents.{IsContentOf};
ghost use Rattle.ux_image_content.specs.Files.{IsImageContent, IsImageFile, RefusesImage};
ghost use Rattle.ux_image_reader.specs.declared.error.ImageError.{ImageError as ErrorData};
ghost use Rattle.ux_image_reader.specs.declared.error.ImageError.TheVariants.{NoMemory};

use crate::entries::rebuild_all;
use crate::image::read_image;
use crate::walk::list_forms;
use std::alloc::Global;
use ux_base::Mem;
use ux_dela::Entry;
use ux_dict::different;
use ux_image_lists::Image;
use ux_image_reader::ImageError;

/// The entries that a file tells, in ascending order of their forms, or the first fault of the file.
/// The time is linear in the file and in what `entries_of` takes.
pub fn read_content(alloc: Global, bytes: &[u8]) -> Result<Vec<Entry>, ImageError>
    requires { length bytes.now < 2 ^ 32 }
    ensures ok { IfOk result (λ content. IsImageContent bytes.now content.items) }
    ensures sound { IfOk result (λ content. All IsSound content.items) }
    ensures exact { IfOk result (λ _. (error : ErrorData) → RefusesImage bytes.now error → ⊥) }
    ensures err { IfErr result (λ error. (error ≡ NoMemory) ⊎ RefusesImage bytes.now error) }
{
    let image = read_image(alloc, bytes)?;
    Ok(entries_of(alloc, &image)?)
}

/// The entries that the codes of an image make of its forms, each once, in ascending order of the
/// forms and in the order of each form's codes. The time is linear in the letters of the forms, each
/// counted for each of its codes, and in the bytes of the lemmas that are made.
pub fn entries_of(alloc: Global, image: &Image) -> Mem<Vec<Entry>>
    requires file { (bytes : List ℕ) × IsImageFile bytes image.now }
    requires automaton { MakeAutomaton image.now.states }
    ensures content { IfOk result (λ content. IsContentOf image.now content.items) }
    ensures sound { IfOk result (λ content. All IsSound content.items) }
{
    let forms = list_forms(alloc, &image.states)?;
    let entries = rebuild_all(alloc, forms.as_slice(), &image.lists)?;
    different(alloc, entries)
}
