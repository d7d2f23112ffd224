//! A text and the dictionaries that are applied to it.

ghost use Rattle.std.specs.Prelude.{IfErr, IfOk};
ghost use Rattle.ux_base.specs.Outside.{IsLater};
ghost use Rattle.ux_plan.specs.Plans.{Comes, Halts};
ghost use Rattle.ux_dictionaries.specs.Dictionaries.{contents_of};
ghost use Rattle.ux_dictionaries.specs.Texts.{text_with_dictionaries};

use crate::dictionaries::read_dictionaries;
use std::alloc::Global;
use ux_alphabet::Alphabet;
use ux_apply::Priority;
use ux_base::{Folder, Txt};
use ux_lexicon::AnyLexicon;
use ux_plan::Stop;
use ux_reasons::Reason;
use ux_texts::read_letters_and_text;
use ux_tokens::Text;

/// A text that is looked up in dictionaries.
#[derive(Drop)]
pub struct LookedUp {
    /// The letters.
    pub alphabet: Alphabet,
    /// The tokens.
    pub text: Text,
    /// The dictionaries, each with its priority.
    pub dics: Vec<(Priority, AnyLexicon)>,
}

/// Reads an alphabet, a text in its letters and dictionaries in the order of their names. With
/// `chars` each letter is a word of its own.
#[tactic(auto, using(ux_plan::proofs::PlanSteps::plan_steps))]
pub fn read_text_with_dictionaries<F: Folder>(
    alloc: Global,
    text: &str,
    alphabet: &str,
    dics: &[Txt],
    chars: bool,
    folder: &mut F,
) -> Result<LookedUp, Stop<Reason>>
    ensures later { IsLater (F.seen folder.old) (F.seen folder.new) }
    ensures ok { IfOk result (λ read. Comes
        (text_with_dictionaries text.now alphabet.now dics.now chars) (F.seen folder.old).files
        (record {
          letters = read.alphabet;
          tokens = read.text;
          dics = contents_of read.dics.items;
        })) }
    ensures err { IfErr result
        (Halts (text_with_dictionaries text.now alphabet.now dics.now chars)
        (F.seen folder.old) (F.seen folder.new)) }
{
    let (alphabet, text) = read_letters_and_text(alloc, text, alphabet, chars, folder)?;
    let dics = read_dictionaries(alloc, dics, folder)?;
    Ok(LookedUp {
        alphabet,
        text,
        dics,
    })
}
