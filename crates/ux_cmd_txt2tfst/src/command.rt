//! The files of a text, and the automata of its sentences.

ghost use Rattle.std.specs.Prelude.{IfErr, IfOk, string_bytes};
ghost use Rattle.ux_base.specs.Outside.{IsLater};
ghost use Rattle.ux_plan.specs.Commands.{Answers};
ghost use Rattle.ux_plan.specs.Plans.{Halts};
ghost use Rattle.ux_dictionaries.specs.Dictionaries.{contents_of};
ghost use Rattle.ux_cmd_txt2tfst.specs.Tfst.{AreAutomataBy, txt2tfst as txt2tfst_command};

use crate::writing::write_automata;
use std::alloc::Global;
use ux_alphabet::Alphabet;
use ux_apply::{Priority, apply};
use ux_base::{Folder, Mem, Txt};
use ux_dictionaries::{LookedUp, read_text_with_dictionaries};
use ux_lexicon::AnyLexicon;
use ux_plan::Stop;
use ux_reasons::Reason;
use ux_tokens::Text;

/// Reads an alphabet, a text in its letters and dictionaries in the order of their names, and gives
/// the automata of the text's sentences. With `chars` each letter is a word of its own.
#[tactic(auto, using(ux_plan::proofs::PlanSteps::plan_steps))]
pub fn txt2tfst<F: Folder>(
    alloc: Global,
    text: &str,
    alphabet: &str,
    dics: &[Txt],
    chars: bool,
    folder: &mut F,
) -> Result<Vec<u8>, Stop<Reason>>
    ensures later { IsLater (F.seen folder.old) (F.seen folder.new) }
    ensures ok { IfOk result (λ answer.
        Answers (txt2tfst_command text.now alphabet.now dics.now chars)
        (F.seen folder.old).files answer.items) }
    ensures err { IfErr result (Halts (txt2tfst_command text.now alphabet.now dics.now chars).plan
        (F.seen folder.old) (F.seen folder.new)) }
{
    let read = read_text_with_dictionaries(alloc, text, alphabet, dics, chars, folder)?;
    let LookedUp {
        alphabet,
        text,
        dics,
    } = read;
    let answer = applied_automata(alloc, &text, &alphabet, dics)?;
    Ok(answer.into_bytes())
}

/// The automata of the text, to which the dictionaries' entries are applied. The dictionaries are
/// freed before they are made.
fn applied_automata(
    alloc: Global,
    text: &Text,
    alphabet: &Alphabet,
    dics: Vec<(Priority, AnyLexicon)>,
) -> Mem<String>
    ensures { IfOk result (λ answer.
        AreAutomataBy alphabet.now text.now (contents_of dics.items) (string_bytes answer)) }
{
    let applied = apply(alloc, text, alphabet, &dics)?;
    drop(dics);
    write_automata(alloc, text, &applied)
}
