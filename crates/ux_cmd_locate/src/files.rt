//! The files of a search, read in their order: the alphabet, the graphs, the text, the
//! dictionaries.
//!
//! Each is read, decoded and given to its format's reader before the next is looked at, so the first
//! that isn't accepted stops the search.

ghost use Rattle.std.specs.Prelude.{IfErr, IfOk};
ghost use Rattle.ux_base.specs.Outside.{IsLater};
ghost use Rattle.ux_plan.specs.Plans.{Halts};
ghost use Rattle.ux_dictionaries.specs.Dictionaries.{contents_of};
ghost use Rattle.ux_cmd_locate.specs.Reading.{AreFiles, search_plan};

use std::alloc::Global;
use ux_alphabet::Alphabet;
use ux_apply::Priority;
use ux_base::{Folder, Txt};
use ux_dictionaries::read_dictionaries;
use ux_grammars::read_net;
use ux_lexicon::AnyLexicon;
use ux_net::Net;
use ux_plan::Stop;
use ux_reasons::Reason;
use ux_texts::{read_alphabet, read_text};
use ux_tokens::Text;

/// A search's files, each as its reader gives it.
#[derive(Drop)]
pub struct Files {
    /// The letters.
    pub alphabet: Alphabet,
    /// The grammar, as states.
    pub net: Net,
    /// The tokens.
    pub text: Text,
    /// The dictionaries, each with its priority.
    pub dics: Vec<(Priority, AnyLexicon)>,
}

/// Reads the files of a search.
#[tactic(auto, using(ux_plan::proofs::PlanSteps::plan_steps))]
pub fn read_files<F: Folder>(
    alloc: Global,
    graph: &str,
    text: &str,
    alphabet: &str,
    dics: &[Txt],
    chars: bool,
    folder: &mut F,
) -> Result<Files, Stop<Reason>>
    ensures later { IsLater (F.seen folder.old) (F.seen folder.new) }
    ensures ok { IfOk result (λ files. AreFiles
        (search_plan graph.now text.now alphabet.now dics.now chars) (F.seen folder.old).files
        files.alphabet files.net files.text (contents_of files.dics.items)) }
    ensures err { IfErr result
        (Halts (search_plan graph.now text.now alphabet.now dics.now chars) (F.seen folder.old)
        (F.seen folder.new)) }
{
    let alphabet = read_alphabet(alloc, alphabet, chars, folder)?;
    let net = read_net(alloc, graph, &alphabet, folder)?;
    let text = read_text(alloc, text, &alphabet, folder)?;
    let dics = read_dictionaries(alloc, dics, folder)?;
    Ok(Files {
        alphabet,
        net,
        text,
        dics,
    })
}
