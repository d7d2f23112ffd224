//! The report on the dictionaries that apply to a text.

ghost use Rattle.std.specs.Prelude.{IfErr, IfOk, string_bytes};
ghost use Rattle.ux_base.specs.Outside.{IsLater};
ghost use Rattle.ux_plan.specs.Commands.{Answers};
ghost use Rattle.ux_plan.specs.Plans.{Halts};
ghost use Rattle.ux_dictionaries.specs.Dictionaries.{contents_of};
ghost use Rattle.ux_cmd_dico.specs.Dico.{IsReportOf, dico as dico_command};

use std::alloc::Global;
use ux_alphabet::Alphabet;
use ux_apply::{Priority, apply};
use ux_base::{Folder, Mem, Txt};
use ux_dictionaries::{LookedUp, read_text_with_dictionaries};
use ux_lexicon::AnyLexicon;
use ux_plan::Stop;
use ux_reasons::Reason;
use ux_report::report;
use ux_tokens::Text;

/// Reads an alphabet, a text in its letters and dictionaries in the order of their names, and gives
/// the report of the entries that apply to the text. With `chars` each letter is a word of its own.
#[tactic(auto, using(ux_plan::proofs::PlanSteps::plan_steps))]
pub fn dico<F: Folder>(
    alloc: Global,
    text: &str,
    alphabet: &str,
    dics: &[Txt],
    chars: bool,
    folder: &mut F,
) -> Result<Vec<u8>, Stop<Reason>>
    ensures later { IsLater (F.seen folder.old) (F.seen folder.new) }
    ensures ok { IfOk result (λ answer.
        Answers (dico_command text.now alphabet.now dics.now chars) (F.seen folder.old).files
        answer.items) }
    ensures err { IfErr result (Halts (dico_command text.now alphabet.now dics.now chars).plan
        (F.seen folder.old) (F.seen folder.new)) }
{
    let read = read_text_with_dictionaries(alloc, text, alphabet, dics, chars, folder)?;
    let LookedUp {
        alphabet,
        text,
        dics,
    } = read;
    let report = applied_report(alloc, &text, &alphabet, dics)?;
    Ok(report.into_bytes())
}

/// The report of the entries that apply to the text. The dictionaries are freed before it is made.
fn applied_report(
    alloc: Global,
    text: &Text,
    alphabet: &Alphabet,
    dics: Vec<(Priority, AnyLexicon)>,
) -> Mem<String>
    ensures { IfOk result (λ report.
        IsReportOf alphabet.now text.now (contents_of dics.items) (string_bytes report)) }
{
    let applied = apply(alloc, text, alphabet, &dics)?;
    drop(dics);
    report(alloc, text, &applied)
}
