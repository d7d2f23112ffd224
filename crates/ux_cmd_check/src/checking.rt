//! Dictionaries whose entries are counted: images and files of forms, and files of lemmas.

ghost use Rattle.std.specs.Prelude.{IfErr, IfOk};
ghost use Rattle.ux_base.specs.Outside.{IsLater};
ghost use Rattle.ux_plan.specs.Commands.{Answers};
ghost use Rattle.ux_plan.specs.Plans.{Halts, Reads, StopsFile};
ghost use Rattle.ux_cmd_check.specs.Check.{check_entries as check_entries_command, check_stems as check_stems_command};
ghost use Rattle.ux_cmd_check.specs.Counting.{IsCountOf, entries_format, stems_format, text_format};
ghost use Rattle.ux_image_files.specs.ImageFiles.{image_format, made};

use crate::printing::entries_line;
use std::alloc::Global;
use ux_base::Folder;
use ux_dela::{DelaError, count_delaf, count_delas};
use ux_image_files::{is_image, read_lexicon};
use ux_plan::{Stop, read_decoded, refused};
use ux_reasons::Reason;

/// Reads a dictionary of forms, and tells the number of its entries.
#[tactic(auto, using(ux_plan::proofs::PlanSteps::plan_steps))]
pub fn check_entries<F: Folder>(
    alloc: Global,
    file: &str,
    folder: &mut F,
) -> Result<Vec<u8>, Stop<Reason>>
    ensures later { IsLater (F.seen folder.old) (F.seen folder.new) }
    ensures ok { IfOk result (λ answer.
        Answers (check_entries_command file.now) (F.seen folder.old).files answer.items) }
    ensures err { IfErr result (Halts (check_entries_command file.now).plan
        (F.seen folder.old) (F.seen folder.new)) }
{
    let count = count_entries(alloc, file, folder)?;
    let line = entries_line(alloc, count)?;
    Ok(line.into_bytes())
}

/// Reads a file of lemmas, and tells the number of its stems.
#[tactic(auto, using(ux_plan::proofs::PlanSteps::plan_steps))]
pub fn check_stems<F: Folder>(
    alloc: Global,
    file: &str,
    folder: &mut F,
) -> Result<Vec<u8>, Stop<Reason>>
    ensures later { IsLater (F.seen folder.old) (F.seen folder.new) }
    ensures ok { IfOk result (λ answer.
        Answers (check_stems_command file.now) (F.seen folder.old).files answer.items) }
    ensures err { IfErr result (Halts (check_stems_command file.now).plan
        (F.seen folder.old) (F.seen folder.new)) }
{
    let count = count_stems(alloc, file, folder)?;
    let line = entries_line(alloc, count)?;
    Ok(line.into_bytes())
}

/// How many entries a dictionary has: an image, or a file of forms.
fn count_entries<F: Folder>(
    alloc: Global,
    name: &str,
    folder: &mut F,
) -> Result<usize, Stop<Reason>>
    ensures later { IsLater (F.seen folder.old) (F.seen folder.new) }
    ensures ok { IfOk result (Reads (entries_format name.now) name.now (F.seen folder.old).files) }
    ensures err { IfErr result (StopsFile (entries_format name.now) name.now
        (F.seen folder.old) (F.seen folder.new)) }
{
    if is_image(name) {
        count_imaged(alloc, name, folder)
    } else {
        count_forms(alloc, name, folder)
    }
}

/// How many entries an image has, each once. No list of them is made.
fn count_imaged<F: Folder>(alloc: Global, name: &str, folder: &mut F) -> Result<usize, Stop<Reason>>
    ensures later { IsLater (F.seen folder.old) (F.seen folder.new) }
    ensures ok { IfOk result
        (Reads (made image_format IsCountOf) name.now (F.seen folder.old).files) }
    ensures err { IfErr result (StopsFile (made image_format IsCountOf) name.now
        (F.seen folder.old) (F.seen folder.new)) }
{
    let lexicon = read_lexicon(alloc, name, folder)?;
    Ok(lexicon.count())
}

/// How many entries a file of forms has.
#[tactic(auto, using(ux_plan::proofs::Decoded::decoding))]
fn count_forms<F: Folder>(alloc: Global, name: &str, folder: &mut F) -> Result<usize, Stop<Reason>>
    ensures later { IsLater (F.seen folder.old) (F.seen folder.new) }
    ensures ok { IfOk result (Reads text_format name.now (F.seen folder.old).files) }
    ensures err { IfErr result
        (StopsFile text_format name.now (F.seen folder.old) (F.seen folder.new)) }
{
    let text = read_decoded(alloc, name, folder)?;
    match count_delaf(text.as_str()) {
        Ok(count) => Ok(count),
        Err(error) => Err(refused(alloc, name, Reason::Dela(error))),
    }
}

/// How many stems a file of lemmas has.
#[tactic(auto, using(ux_plan::proofs::Decoded::decoding))]
fn count_stems<F: Folder>(alloc: Global, name: &str, folder: &mut F) -> Result<usize, Stop<Reason>>
    ensures later { IsLater (F.seen folder.old) (F.seen folder.new) }
    ensures ok { IfOk result (Reads stems_format name.now (F.seen folder.old).files) }
    ensures err { IfErr result
        (StopsFile stems_format name.now (F.seen folder.old) (F.seen folder.new)) }
{
    let text = read_decoded(alloc, name, folder)?;
    match count_delas(alloc, text.as_str()) {
        Ok(count) => Ok(count),
        Err(DelaError::NoMemory) => Err(Stop::NoMemory),
        Err(error) => Err(refused(alloc, name, Reason::Dela(error))),
    }
}
