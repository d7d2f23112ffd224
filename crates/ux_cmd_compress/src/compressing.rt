//! Dictionaries, written as images.

ghost use Rattle.std.specs.Prelude.{IfErr, IfOk};
ghost use Rattle.ux_base.specs.Outside.{IsLater};
ghost use Rattle.ux_dict.specs.Content.{IsContent};
ghost use Rattle.ux_image.specs.Contents.{IsContent as IsImageable};
ghost use Rattle.ux_image_files.specs.ImageFiles.{image_format, made};
ghost use Rattle.ux_plan.specs.Commands.{Answers};
ghost use Rattle.ux_plan.specs.Plans.{Halts, Reads, StopsFile};
ghost use Rattle.ux_cmd_compress.specs.Compress.{compress as compress_command};
ghost use Rattle.ux_cmd_compress.specs.Contents.{content_format, text_format};

use crate::content::{content_in, content_of};
use std::alloc::Global;
use ux_base::Folder;
use ux_dela::DelaError;
use ux_dict::Stored;
use ux_image::image_of;
use ux_image_files::{is_image, read_image};
use ux_plan::{Stop, read_decoded, refused};
use ux_reasons::Reason;

/// Reads a dictionary, and gives the image of its content.
#[tactic(auto, using(ux_plan::proofs::PlanSteps::plan_steps))]
pub fn compress<F: Folder>(
    alloc: Global,
    dic: &str,
    folder: &mut F,
) -> Result<Vec<u8>, Stop<Reason>>
    ensures later { IsLater (F.seen folder.old) (F.seen folder.new) }
    ensures ok { IfOk result (λ answer.
        Answers (compress_command dic.now) (F.seen folder.old).files answer.items) }
    ensures err { IfErr result (Halts (compress_command dic.now).plan
        (F.seen folder.old) (F.seen folder.new)) }
{
    let content = read_content(alloc, dic, folder)?;
    let image = image_of(alloc, content)?;
    Ok(image)
}

/// Reads a dictionary: an image, or a file of forms.
fn read_content<F: Folder>(
    alloc: Global,
    name: &str,
    folder: &mut F,
) -> Result<Vec<Stored>, Stop<Reason>>
    ensures later { IsLater (F.seen folder.old) (F.seen folder.new) }
    ensures ok { IfOk result (λ content.
        Reads (content_format name.now) name.now (F.seen folder.old).files content.items) }
    ensures ordered { IfOk result (λ content. IsImageable content.items) }
    ensures err { IfErr result (StopsFile (content_format name.now) name.now
        (F.seen folder.old) (F.seen folder.new)) }
{
    if is_image(name) {
        read_imaged(alloc, name, folder)
    } else {
        read_text(alloc, name, folder)
    }
}

/// The content of an image.
fn read_imaged<F: Folder>(
    alloc: Global,
    name: &str,
    folder: &mut F,
) -> Result<Vec<Stored>, Stop<Reason>>
    ensures later { IsLater (F.seen folder.old) (F.seen folder.new) }
    ensures ok { IfOk result (λ content. Reads (made image_format IsContent) name.now
        (F.seen folder.old).files content.items) }
    ensures ordered { IfOk result (λ content. IsImageable content.items) }
    ensures err { IfErr result (StopsFile (made image_format IsContent) name.now
        (F.seen folder.old) (F.seen folder.new)) }
{
    let entries = read_image(alloc, name, folder)?;
    let content = content_of(alloc, entries)?;
    Ok(content)
}

/// The content of a file of forms.
#[tactic(auto, using(ux_plan::proofs::Decoded::decoding))]
fn read_text<F: Folder>(
    alloc: Global,
    name: &str,
    folder: &mut F,
) -> Result<Vec<Stored>, Stop<Reason>>
    ensures later { IsLater (F.seen folder.old) (F.seen folder.new) }
    ensures ok { IfOk result (λ content.
        Reads text_format name.now (F.seen folder.old).files content.items) }
    ensures ordered { IfOk result (λ content. IsImageable content.items) }
    ensures err { IfErr result
        (StopsFile text_format name.now (F.seen folder.old) (F.seen folder.new)) }
{
    let text = read_decoded(alloc, name, folder)?;
    match content_in(alloc, text.as_str()) {
        Ok(content) => Ok(content),
        Err(DelaError::NoMemory) => Err(Stop::NoMemory),
        Err(error) => Err(refused(alloc, name, Reason::Dela(error))),
    }
}
