//! The hits of the steps: of each grammar the longest, to which the dictionaries are applied.

ghost use Rattle.std.specs.Prelude.{◌≡◌, ◌<◌, IfOk, length};
ghost use Rattle.ux_base.specs.declared.settings.NoVar.TheVariants.{Nothing};
ghost use Rattle.ux_base.specs.declared.settings.Policy.TheVariants.{Longest};
ghost use Rattle.ux_dictionaries.specs.Dictionaries.{contents_of};
ghost use Rattle.ux_lexical_tables.specs.Belonging.{Belongs};
ghost use Rattle.ux_locate.specs.Hits.{IsHit};
ghost use Rattle.ux_locate.specs.Index.{IsKeptListing};
ghost use Rattle.ux_net.specs.Nets.{net_grammar};
ghost use Rattle.ux_cascade.specs.Rewriting.{CanRewrite};
ghost use Rattle.ux_cmd_cascade.specs.Finding.{AreStepHits, FindsByNet};

use crate::files::StepNet;
use std::alloc::Global;
use std::marker::Brand;
use std::sync::ledger::{Blank, Ledger};
use ux_alphabet::Alphabet;
use ux_apply::{Priority, apply};
use ux_base::{Mem, Mode, NoVar, Policy, Steps};
use ux_cascade::Finder;
use ux_lexical_tables::LexicalTables;
use ux_lexicon::AnyLexicon;
use ux_locate::locate;
use ux_net::Net;
use ux_outputs::Hit;
use ux_tokens::Text;

/// The grammars of the steps, and what is applied to each text in which they are searched.
#[derive(Drop)]
pub struct Searching<'a> {
    /// The letters.
    pub alphabet: &'a Alphabet,
    /// The grammars.
    pub nets: &'a [StepNet],
    /// The dictionaries.
    pub dics: &'a [(Priority, AnyLexicon)],
}

impl<'a> Finder for Searching<'a> {
    ghost use Rattle.std.specs.Prelude.{length};
    ghost use Rattle.ux_dictionaries.specs.Dictionaries.{contents_of};
    ghost use Rattle.ux_cmd_cascade.specs.Finding.{FindsByNet};
    ghost use Rattle.ux_cmd_cascade.specs.OneList.{one_list_by_net};

    ghost steps = { λ searching. length searching.nets.now };

    ghost finds = { λ searching.
        FindsByNet searching.alphabet.now (contents_of searching.dics.now) searching.nets.now };

    fn find(&self, alloc: Global, step: usize, text: &Text) -> Mem<Vec<Hit>> {
        hits_of_step(alloc, self.alphabet, self.dics, &self.nets[step], text)
    }

    ghost one_list = { λ searching.
        one_list_by_net searching.alphabet.now (contents_of searching.dics.now) searching.nets.now };
}

/// The hits of a step's grammar in a text, in their order. The entries of the dictionaries are applied
/// to the text.
fn hits_of_step(
    alloc: Global,
    alphabet: &Alphabet,
    dics: &[(Priority, AnyLexicon)],
    step: &StepNet,
    text: &Text,
) -> Mem<Vec<Hit>>
    ensures are { IfOk result (λ hits. AreStepHits alphabet.now (contents_of dics.now)
        (net_grammar step.now.net) step.now.mode text.now hits.items) }
    ensures fits { IfOk result (λ hits. CanRewrite text.now hits.items) }
{
    let applied = apply(alloc, text, alphabet, dics)?;
    let blank = Blank::new(1);
    let hits = applied_hits::<Brand>(alloc, alphabet, &applied, &step.net, step.mode, text, blank)?;
    Ok(hits)
}

/// The same in a text with the entries that apply to it, with no step taken before.
fn applied_hits<L: Ledger>(
    alloc: Global,
    alphabet: &Alphabet,
    applied: &LexicalTables,
    net: &Net,
    mode: Mode,
    text: &Text,
    blank: Blank,
) -> Mem<Vec<Hit>>
    requires name { blank.name ≡ L.name }
    requires parts { blank.parts ≡ L.parts }
    requires some { 0 < blank.parts }
    requires belongs { Belongs alphabet.now text.now applied.now }
    ensures { IfOk result (λ hits. IsKeptListing Longest
        (IsHit alphabet.now text.now applied.now (net_grammar net.now) mode Nothing) hits.items) }
{
    let mut steps = Steps::<L>::new(blank);
    locate(
        alloc,
        net,
        text,
        alphabet,
        applied,
        mode,
        NoVar::Nothing,
        Policy::Longest,
        &mut steps,
    )
}
