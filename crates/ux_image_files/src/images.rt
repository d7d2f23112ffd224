//! Files that are images.

ghost use Rattle.std.specs.Prelude.{◌≡◌, ◌≢◌, ◌⊎◌, All, IfErr, IfOk};
ghost use Rattle.ux_base.specs.Outside.{IsLater};
ghost use Rattle.ux_dela.specs.Sound.{IsSound};
ghost use Rattle.ux_dict.specs.Content.{IsDictionary};
ghost use Rattle.ux_image_reader.specs.declared.error.ImageError.TheVariants.{NoMemory};
ghost use Rattle.ux_plan.specs.Plans.{Reads, StopsFile};
ghost use Rattle.ux_image_files.specs.ImageFiles.{image_format, is_image as is_image_name};

use std::alloc::Global;
use ux_base::Folder;
use ux_dela::Entry;
use ux_image_content::read_content;
use ux_image_lexicon::{ImageLexicon, read_image as read_automaton};
use ux_image_reader::ImageError;
use ux_plan::{Stop, read_bytes, refused};
use ux_reasons::Reason;

/// Whether the name is that of an image.
pub fn is_image(name: &str) -> bool
    ensures { result ≡ is_image_name name.now }
{
    name.as_bytes().ends_with(b".udi")
}

/// Reads an image, and gives the entries that it tells, each once.
#[tactic(auto, using(crate::proofs::ByteSteps::byte_steps))]
pub fn read_image<F: Folder>(
    alloc: Global,
    name: &str,
    folder: &mut F,
) -> Result<Vec<Entry>, Stop<Reason>>
    ensures later { IsLater (F.seen folder.old) (F.seen folder.new) }
    ensures ok { IfOk result (λ entries.
        Reads image_format name.now (F.seen folder.old).files entries.items) }
    ensures sound { IfOk result (λ entries. All IsSound entries.items) }
    ensures err { IfErr result (StopsFile image_format name.now
        (F.seen folder.old) (F.seen folder.new)) }
{
    let bytes = read_bytes(alloc, name, folder)?;
    match read_content(alloc, &bytes) {
        Ok(entries) => Ok(entries),
        Err(error) => Err(stop_of(alloc, name, error)),
    }
}

/// Reads an image as the dictionary that it is, and makes none of its entries. Its content is sound,
/// in order of form, and has each entry once.
#[tactic(auto, using(crate::proofs::ByteSteps::byte_steps))]
pub fn read_lexicon<F: Folder>(
    alloc: Global,
    name: &str,
    folder: &mut F,
) -> Result<ImageLexicon, Stop<Reason>>
    ensures later { IsLater (F.seen folder.old) (F.seen folder.new) }
    ensures ok { IfOk result (Reads image_format name.now (F.seen folder.old).files) }
    ensures kept { IfOk result IsDictionary }
    ensures err { IfErr result (StopsFile image_format name.now
        (F.seen folder.old) (F.seen folder.new)) }
{
    let bytes = read_bytes(alloc, name, folder)?;
    match read_automaton(alloc, &bytes) {
        Ok(lexicon) => Ok(lexicon),
        Err(error) => Err(stop_of(alloc, name, error)),
    }
}

/// What stops a command at an image that isn't read.
fn stop_of(alloc: Global, name: &str, error: ImageError) -> Stop<Reason>
    ensures { (result ≡ Stop.NoMemory)
        ⊎ ((error ≢ NoMemory) × (result ≡ Stop.Refused name.now (Reason.Image error))) }
{
    match error {
        ImageError::NoMemory => Stop::NoMemory,
        error => refused(alloc, name, Reason::Image(error)),
    }
}
