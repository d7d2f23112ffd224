//! The files of `inflect`: the lemmas, and the graphs of their classes.

ghost use Rattle.std.specs.Prelude.{◌≡◌, ◌<◌, IfErr, IfOk, Some, length, slice_get};
ghost use Rattle.ux_base.specs.Outside.{IsLater};
ghost use Rattle.ux_tokens.specs.Numbers.{texts_in};
ghost use Rattle.ux_plan.specs.Plans.{Halts, Reads, StopsFile, all};
ghost use Rattle.ux_grammars.specs.Reading.{HasDrawnNet};
ghost use Rattle.ux_cmd_inflect.specs.Files.{AreNets};
ghost use Rattle.ux_cmd_inflect.specs.Reading.{NO_LETTERS, class_plan, stems_format};

use indexmap::IndexSet;
use std::alloc::Global;
use ux_alphabet::Alphabet;
use ux_base::Folder;
use ux_dela::{DelaError, Stem, read_delas};
use ux_grammars::{callee_file, read_drawn_net};
use ux_net::Net;
use ux_paradigm::Paradigm;
use ux_plan::{Stop, read_decoded, refused};
use ux_reasons::Reason;

/// Reads the lemmas of a file.
#[tactic(auto, using(ux_plan::proofs::Decoded::decoding))]
pub(crate) fn read_stems<F: Folder>(
    alloc: Global,
    name: &str,
    folder: &mut F,
) -> Result<Vec<Stem>, Stop<Reason>>
    ensures later { IsLater (F.seen folder.old) (F.seen folder.new) }
    ensures ok { IfOk result (λ stems.
        Reads stems_format name.now (F.seen folder.old).files stems.items) }
    ensures err { IfErr result
        (StopsFile stems_format name.now (F.seen folder.old) (F.seen folder.new)) }
{
    let text = read_decoded(alloc, name, folder)?;
    match read_delas(alloc, text.as_str()) {
        Ok(stems) => Ok(stems),
        Err(DelaError::NoMemory) => Err(Stop::NoMemory),
        Err(error) => Err(refused(alloc, name, Reason::Dela(error))),
    }
}

/// Reads the graphs of these classes, and gives the paradigm of each.
pub(crate) fn read_paradigms<F: Folder>(
    alloc: Global,
    word: &str,
    classes: &IndexSet<&str>,
    folder: &mut F,
) -> Result<Vec<Paradigm>, Stop<Reason>>
    ensures later { IsLater (F.seen folder.old) (F.seen folder.new) }
    ensures ok { IfOk result (λ paradigms.
        AreNets word.now (texts_in classes.now) (F.seen folder.old).files paradigms.items) }
    ensures count { IfOk result (λ paradigms. length paradigms.items ≡ length (texts_in classes.now)) }
    ensures err { IfErr result (Halts (all (class_plan word.now) (texts_in classes.now))
        (F.seen folder.old) (F.seen folder.new)) }
{
    let mut paradigms = Vec::new(alloc);
    for number in 0..classes.len() {
        let class = class_at(classes, number);
        paradigms.push(read_paradigm(alloc, word, class, folder)?)?;
    }
    Ok(paradigms)
}

/// The class of this number.
fn class_at<'a>(classes: &IndexSet<&'a str>, number: usize) -> &'a str
    requires { number < length (texts_in classes.now) }
    ensures { slice_get (texts_in classes.now) number ≡ Some result.now }
{
    match classes.get_index(number) {
        Some(class) => class,
        None => unreachable!(),
    }
}

/// Reads the graphs of a class, and gives its paradigm.
fn read_paradigm<F: Folder>(
    alloc: Global,
    word: &str,
    class: &str,
    folder: &mut F,
) -> Result<Paradigm, Stop<Reason>>
    ensures later { IsLater (F.seen folder.old) (F.seen folder.new) }
    ensures ok { IfOk result
        (HasDrawnNet (class_plan word.now class.now) (F.seen folder.old).files NO_LETTERS) }
    ensures err { IfErr result
        (Halts (class_plan word.now class.now) (F.seen folder.old) (F.seen folder.new)) }
{
    match read_class(alloc, word, class, folder) {
        Ok(net) => Ok(Paradigm::new(alloc, net)),
        Err(stop) => Err(stop),
    }
}

/// Reads the graphs of a class, and gives their net.
#[tactic(auto, using(ux_plan::proofs::PlanSteps::plan_steps))]
fn read_class<F: Folder>(
    alloc: Global,
    word: &str,
    class: &str,
    folder: &mut F,
) -> Result<Net, Stop<Reason>>
    ensures later { IsLater (F.seen folder.old) (F.seen folder.new) }
    ensures ok { IfOk result
        (HasDrawnNet (class_plan word.now class.now) (F.seen folder.old).files NO_LETTERS) }
    ensures err { IfErr result
        (Halts (class_plan word.now class.now) (F.seen folder.old) (F.seen folder.new)) }
{
    let file = callee_file(alloc, word, class)?;
    read_drawn_net(alloc, file.as_str(), &Alphabet::empty(), folder)
}
