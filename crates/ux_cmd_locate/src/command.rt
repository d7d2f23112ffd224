//! The command: files in, the index of the hits out.

ghost use Rattle.std.specs.Prelude.{◌≡◌, ◌<◌, IfErr, IfOk, string_bytes};
ghost use Rattle.ux_base.specs.Outside.{IsLater};
ghost use Rattle.ux_net.specs.Nets.{net_grammar};
ghost use Rattle.ux_plan.specs.Commands.{Answers};
ghost use Rattle.ux_plan.specs.Plans.{Halts};
ghost use Rattle.ux_lexical_tables.specs.Belonging.{Belongs};
ghost use Rattle.ux_dictionaries.specs.Dictionaries.{contents_of};
ghost use Rattle.ux_locate.specs.Hits.{IsHit};
ghost use Rattle.ux_locate.specs.Index.{IsIndex};
ghost use Rattle.ux_cmd_locate.specs.Indexes.{IsAppliedIndex};
ghost use Rattle.ux_cmd_locate.specs.Locate.{locate as locate_command};

use crate::files::{Files, read_files};
use std::alloc::Global;
use std::marker::Brand;
use std::sync::ledger::{Blank, Ledger};
use ux_alphabet::Alphabet;
use ux_apply::apply;
use ux_base::{Folder, Mem, Mode, NoVar, Policy, Steps, Txt};
use ux_lexical_tables::LexicalTables;
use ux_locate::{index_text, locate as locate_hits, locate_spans, span_index};
use ux_net::Net;
use ux_plan::Stop;
use ux_reasons::Reason;
use ux_tokens::Text;

/// The index of the grammar's hits in the text, to which the entries of the dictionaries are
/// applied, or what stops the search. The hits are rendered in the mode, and the policy says which are
/// kept. `chars` says that each letter is a word by itself.
#[tactic(auto, using(ux_plan::proofs::PlanSteps::plan_steps, crate::proofs::Answering::answered))]
pub fn locate<F: Folder>(
    alloc: Global,
    graph: &str,
    text: &str,
    alphabet: &str,
    dics: &[Txt],
    mode: Mode,
    policy: Policy,
    novar: NoVar,
    chars: bool,
    folder: &mut F,
) -> Result<Vec<u8>, Stop<Reason>>
    ensures later { IsLater (F.seen folder.old) (F.seen folder.new) }
    ensures ok { IfOk result (λ answer. Answers
        (locate_command graph.now text.now alphabet.now dics.now mode policy novar chars)
        (F.seen folder.old).files answer.items) }
    ensures err { IfErr result
        (Halts (locate_command graph.now text.now alphabet.now dics.now mode policy novar chars).plan
        (F.seen folder.old) (F.seen folder.new)) }
{
    let files = read_files(alloc, graph, text, alphabet, dics, chars, folder)?;
    Ok(index_of(alloc, files, mode, policy, novar)?)
}

/// The index of the grammar's hits in the text with the entries that apply to it. The dictionaries
/// are freed before it is searched.
fn index_of(alloc: Global, files: Files, mode: Mode, policy: Policy, novar: NoVar) -> Mem<Vec<u8>>
    ensures { IfOk result (λ index. IsAppliedIndex files.alphabet files.text
        (contents_of files.dics.items) (net_grammar files.net) mode policy novar index.items) }
{
    let Files {
        alphabet,
        net,
        text,
        dics,
    } = files;
    let applied = apply(alloc, &text, &alphabet, &dics)?;
    drop(dics);
    let blank = Blank::new(1);
    let index = hits_index::<Brand>(
        alloc, &net, &text, &alphabet, &applied, mode, policy, novar, blank,
    )?;
    Ok(index.into_bytes())
}

/// The index of the hits, with no step taken before. Where outputs are ignored, and the grammar has no
/// cuts, no text of a hit is copied before it is written.
fn hits_index<L: Ledger>(
    alloc: Global,
    net: &Net,
    text: &Text,
    alphabet: &Alphabet,
    applied: &LexicalTables,
    mode: Mode,
    policy: Policy,
    novar: NoVar,
    blank: Blank,
) -> Mem<String>
    requires name { blank.name ≡ L.name }
    requires parts { blank.parts ≡ L.parts }
    requires some { 0 < blank.parts }
    requires belongs { Belongs alphabet.now text.now applied.now }
    ensures { IfOk result (λ index. IsIndex mode policy
        (IsHit alphabet.now text.now applied.now (net_grammar net.now) mode novar)
        (string_bytes index)) }
{
    let mut steps = Steps::<L>::new(blank);
    match mode {
        Mode::Ignore if net.cuts_nothing() => {
            let spans = locate_spans(alloc, net, text, alphabet, applied, policy, &mut steps)?;
            span_index(alloc, text, spans.as_slice())
        }
        Mode::Ignore | Mode::Merge | Mode::Replace => {
            let hits = locate_hits(
                alloc, net, text, alphabet, applied, mode, novar, policy, &mut steps,
            )?;
            index_text(alloc, mode, hits.as_slice())
        }
    }
}
