//! Files of forms and images, as the dictionaries of a command.

ghost use Rattle.std.specs.Prelude.{◌≡◌, IfErr, IfOk};
ghost use Rattle.ux_base.specs.Outside.{IsLater};
ghost use Rattle.ux_plan.specs.Plans.{Comes, Halts, Reads, StopsFile, each};
ghost use Rattle.ux_dictionaries.specs.Dictionaries.{contents_of, dictionary_format, imaged_format, seen_as, text_format};

use std::alloc::Global;
use ux_apply::Priority;
use ux_base::{Folder, Txt};
use ux_dela::DelaError;
use ux_image_files::{is_image, read_lexicon};
use ux_lexicon::{AnyLexicon, read_dictionary as read_forms};
use ux_plan::{Stop, base_of, read_decoded, refused};
use ux_reasons::Reason;

/// Reads the dictionaries of these names.
#[tactic(auto, using(ux_plan::proofs::PlanSteps::plan_steps))]
pub fn read_dictionaries<F: Folder>(
    alloc: Global,
    names: &[Txt],
    folder: &mut F,
) -> Result<Vec<(Priority, AnyLexicon)>, Stop<Reason>>
    ensures later { IsLater (F.seen folder.old) (F.seen folder.new) }
    ensures ok { IfOk result (λ dics. Comes (each dictionary_format names.now)
        (F.seen folder.old).files (contents_of dics.items)) }
    ensures err { IfErr result (Halts (each dictionary_format names.now)
        (F.seen folder.old) (F.seen folder.new)) }
{
    let mut dics = Vec::new(alloc);
    for name in names {
        let dic = read_dictionary(alloc, name.as_str(), folder)?;
        dics.push(dic)?;
    }
    Ok(dics)
}

/// Reads a dictionary: an image, or a file of forms. Its name without its folder gives its priority.
fn read_dictionary<F: Folder>(
    alloc: Global,
    name: &str,
    folder: &mut F,
) -> Result<(Priority, AnyLexicon), Stop<Reason>>
    ensures later { IsLater (F.seen folder.old) (F.seen folder.new) }
    ensures ok { IfOk result (λ dic. Reads
        (dictionary_format name.now) name.now
        (F.seen folder.old).files (seen_as dic)) }
    ensures err { IfErr result (StopsFile
        (dictionary_format name.now) name.now
        (F.seen folder.old) (F.seen folder.new)) }
{
    if is_image(name) {
        read_imaged(alloc, name, folder)
    } else {
        read_text(alloc, name, folder)
    }
}

/// Reads an image as a dictionary, and makes none of its entries.
fn read_imaged<F: Folder>(
    alloc: Global,
    name: &str,
    folder: &mut F,
) -> Result<(Priority, AnyLexicon), Stop<Reason>>
    ensures later { IsLater (F.seen folder.old) (F.seen folder.new) }
    ensures ok { IfOk result (λ dic. Reads (imaged_format name.now) name.now
        (F.seen folder.old).files (seen_as dic)) }
    ensures err { IfErr result (StopsFile (imaged_format name.now) name.now
        (F.seen folder.old) (F.seen folder.new)) }
{
    let lexicon = read_lexicon(alloc, name, folder)?;
    Ok((Priority::of(base_of(name)), AnyLexicon::Image(lexicon)))
}

/// Reads a file of forms as a dictionary.
#[tactic(auto, using(ux_plan::proofs::Decoded::decoding))]
fn read_text<F: Folder>(
    alloc: Global,
    name: &str,
    folder: &mut F,
) -> Result<(Priority, AnyLexicon), Stop<Reason>>
    ensures later { IsLater (F.seen folder.old) (F.seen folder.new) }
    ensures ok { IfOk result (λ dic. Reads (text_format name.now) name.now
        (F.seen folder.old).files (seen_as dic)) }
    ensures err { IfErr result (StopsFile (text_format name.now)
        name.now (F.seen folder.old) (F.seen folder.new)) }
{
    let text = read_decoded(alloc, name, folder)?;
    match read_forms(alloc, text.as_str()) {
        Ok(lexicon) => Ok((Priority::of(base_of(name)), lexicon)),
        Err(DelaError::NoMemory) => Err(Stop::NoMemory),
        Err(error) => Err(refused(alloc, name, Reason::Dela(error))),
    }
}
