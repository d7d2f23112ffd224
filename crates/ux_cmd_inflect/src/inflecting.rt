//! The forms of lemmas as lines.

ghost use Rattle.std.specs.Prelude.{◌≡◌, ◌⊎◌, ◌++◌, ◌<◌, ℕ, List, All, IfErr, IfOk, IfSome, OnOk, Some, length, slice_get, string_bytes};
ghost use Rattle.ux_base.specs.Outside.{IsLater};
ghost use Rattle.ux_tokens.specs.Numbers.{texts_in};
ghost use Rattle.ux_plan.specs.Commands.{Answers};
ghost use Rattle.ux_plan.specs.Plans.{Halts, StopsTest, refusing};
ghost use Rattle.ux_inflect.specs.Refusing.{IsAccepted};
ghost use Rattle.ux_cmd_inflect.specs.Classes.{AreClassed};
ghost use Rattle.ux_cmd_inflect.specs.Files.{IsNetAt, PutsForms, RefusesBy};
ghost use Rattle.ux_cmd_inflect.specs.Inflect.{inflect as inflect_command};
ghost use Rattle.ux_cmd_inflect.specs.Inflecting.{AreForms, IsInflectable, NamesFile, RefusesStems};
ghost use Rattle.ux_paradigm.specs.Lines.{AreLines};

use crate::classes::{Classes, classes_of};
use crate::files::{read_paradigms, read_stems};
use std::alloc::Global;
use ux_base::{Folder, Mem, Txt};
use ux_dela::Stem;
use ux_grammars::{callee_file, named_file};
use ux_inflect::InflectError;
use ux_paradigm::Paradigm;
use ux_plan::Stop;
use ux_reasons::Reason;

/// Reads lemmas and the graphs of their classes, and gives the lines of their forms.
#[tactic(auto, using(ux_plan::proofs::PlanSteps::plan_steps))]
pub fn inflect<F: Folder>(
    alloc: Global,
    stems: &str,
    folder: &mut F,
) -> Result<Vec<u8>, Stop<Reason>>
    ensures later { IsLater (F.seen folder.old) (F.seen folder.new) }
    ensures ok { IfOk result (λ answer.
        Answers (inflect_command stems.now) (F.seen folder.old).files answer.items) }
    ensures err { IfErr result
        (Halts (inflect_command stems.now).plan (F.seen folder.old) (F.seen folder.new)) }
{
    let lemmas = read_stems(alloc, stems, folder)?;
    let classes = classes_of(alloc, &lemmas)?;
    let paradigms = read_paradigms(alloc, stems, &classes.names, folder)?;
    let lines = inflected(alloc, stems, &lemmas, &classes, paradigms)?;
    Ok(lines.into_bytes())
}

/// The lines of the forms of the lemmas, lemma by lemma.
fn inflected(
    alloc: Global,
    word: &str,
    stems: &[Stem],
    classes: &Classes<'_>,
    paradigms: Vec<Paradigm>,
) -> Result<String, Stop<Reason>>
    requires classed { AreClassed stems.now (texts_in classes.now.names) classes.now.numbers.items }
    requires nets { length paradigms.items ≡ length (texts_in classes.now.names) }
    ensures accepted { OnOk result (All
        (IsInflectable (IsNetAt (texts_in classes.now.names) paradigms.items)) stems.now) }
    ensures ok { IfOk result (λ lines. AreForms
        (IsNetAt (texts_in classes.now.names) paradigms.items) stems.now (string_bytes lines)) }
    ensures err { IfErr result (StopsTest (refusing (RefusesStems
        (IsNetAt (texts_in classes.now.names) paradigms.items) word.now stems.now))) }
{
    let mut paradigms = paradigms;
    let mut lines = String::new(alloc);
    for (place, stem) in stems.iter().enumerate() {
        let number = number_at(classes, place);
        put_forms(alloc, word, stem, &mut paradigms[number], &mut lines)?;
    }
    Ok(lines)
}

/// The number of the class of the lemma at this place.
fn number_at(classes: &Classes<'_>, place: usize) -> usize
    requires { place < length classes.now.numbers.items }
    ensures { slice_get classes.now.numbers.items place ≡ Some result }
{
    classes.numbers[place]
}

/// Adds the lines of the forms of a lemma.
fn put_forms(
    alloc: Global,
    word: &str,
    stem: &Stem,
    paradigm: &mut Paradigm,
    lines: &mut String,
) -> Result<(), Stop<Reason>>
    ensures same { paradigm.new ≡ paradigm.old }
    ensures accepted { OnOk result (IsAccepted stem.now paradigm.old) }
    ensures ok { OnOk result (PutsForms stem.now paradigm.old
        (string_bytes lines.old) (string_bytes lines.new)) }
    ensures err { IfErr result (StopsTest (refusing (RefusesBy word.now stem.now paradigm.old))) }
{
    let forms = forms_of(alloc, word, stem, paradigm)?;
    lines.push_str(forms.as_str())?;
    Ok(())
}

/// The lines of the forms of a lemma. The stop names the file of the graph at which it is refused.
fn forms_of(
    alloc: Global,
    word: &str,
    stem: &Stem,
    paradigm: &mut Paradigm,
) -> Result<String, Stop<Reason>>
    ensures same { paradigm.new ≡ paradigm.old }
    ensures accepted { OnOk result (IsAccepted stem.now paradigm.old) }
    ensures ok { IfOk result (λ forms. AreLines stem.now paradigm.old (string_bytes forms)) }
    ensures err { IfErr result (StopsTest (refusing (RefusesBy word.now stem.now paradigm.old))) }
{
    match paradigm.lines(alloc, stem) {
        Ok(lines) => Ok(lines),
        Err(error) => Err(refused_stem(alloc, word, stem.class.as_str(), error)),
    }
}

/// The stop that names the file of the graph at fault, or of the class.
fn refused_stem(alloc: Global, word: &str, class: &str, error: InflectError) -> Stop<Reason>
    ensures { (result ≡ Stop.NoMemory) ⊎ ((file : List ℕ) × NamesFile word.now class.now error file
        × (result ≡ Stop.Refused file (Reason.Inflect error))) }
{
    match file_at_fault(alloc, word, class, &error) {
        Ok(Some(file)) => Stop::Refused {
            name: Txt::new(file),
            reason: Reason::Inflect(error),
        },
        Ok(None) => Stop::NoMemory,
        Err(_) => Stop::NoMemory,
    }
}

/// The file that a refusal names: that of the graph at fault, or of the class.
fn file_at_fault(
    alloc: Global,
    word: &str,
    class: &str,
    error: &InflectError,
) -> Mem<Option<String>>
    ensures { IfOk result (λ found. IfSome found (λ file.
        NamesFile word.now class.now error.now (string_bytes file))) }
{
    let main = callee_file(alloc, word, class)?;
    match error {
        InflectError::Cyclic { graph } => {
            Ok(Some(named_file(alloc, main.as_str(), graph.as_str())?))
        }
        InflectError::BadItem { graph, .. } => {
            Ok(Some(named_file(alloc, main.as_str(), graph.as_str())?))
        }
        InflectError::StackEnd { .. } => Ok(Some(main)),
        InflectError::BadCodes { .. } => Ok(Some(main)),
        InflectError::NoMemory => Ok(None),
    }
}
