//! The command: files in, the concordance of the hits out.

ghost use Rattle.std.specs.Prelude.{IfErr, IfOk};
ghost use Rattle.ux_base.specs.Outside.{IsLater};
ghost use Rattle.ux_net.specs.Nets.{net_grammar};
ghost use Rattle.ux_plan.specs.Commands.{Answers};
ghost use Rattle.ux_plan.specs.Plans.{Halts};
ghost use Rattle.ux_dictionaries.specs.Dictionaries.{contents_of};
ghost use Rattle.ux_cmd_concord.specs.Applied.{IsAppliedConcordance};
ghost use Rattle.ux_cmd_concord.specs.Concord.{concord as concord_command};

use crate::hits::hits_of;
use crate::layout::Layout;
use std::alloc::Global;
use std::marker::Brand;
use std::sync::ledger::Blank;
use ux_apply::apply;
use ux_base::{Folder, Mem, Mode, NoVar, Policy, Txt};
use ux_cmd_locate::{Files, read_files};
use ux_concordance::concord as concord_hits;
use ux_lexical_tables::LexicalTables;
use ux_plan::Stop;
use ux_reasons::Reason;

/// The concordance of what the policy keeps of the grammar's hits in the text, to which the entries of
/// the dictionaries are applied, or what stops the search. The hits are rendered in the mode. `chars` says that each letter
/// is a word by itself.
#[tactic(auto, using(ux_plan::proofs::PlanSteps::plan_steps, crate::proofs::Answering::answered))]
pub fn concord<F: Folder>(
    alloc: Global,
    graph: &str,
    text: &str,
    alphabet: &str,
    dics: &[Txt],
    mode: Mode,
    policy: Policy,
    novar: NoVar,
    chars: bool,
    layout: Layout,
    folder: &mut F,
) -> Result<Vec<u8>, Stop<Reason>>
    ensures later { IsLater (F.seen folder.old) (F.seen folder.new) }
    ensures ok { IfOk result (λ answer. Answers
        (concord_command graph.now text.now alphabet.now dics.now mode policy novar chars layout)
        (F.seen folder.old).files answer.items) }
    ensures err { IfErr result
        (Halts (concord_command graph.now text.now alphabet.now dics.now mode policy novar chars layout).plan
        (F.seen folder.old) (F.seen folder.new)) }
{
    let files = read_files(alloc, graph, text, alphabet, dics, chars, folder)?;
    Ok(concordance_of(alloc, files, mode, policy, novar, layout)?)
}

/// The concordance of what the policy keeps of the grammar's hits in the text with the entries that
/// apply to it. The dictionaries are freed before it is searched.
fn concordance_of(
    alloc: Global,
    files: Files,
    mode: Mode,
    policy: Policy,
    novar: NoVar,
    layout: Layout,
) -> Mem<Vec<u8>>
    ensures { IfOk result (λ answer. IsAppliedConcordance files.alphabet files.text
        (contents_of files.dics.items) (net_grammar files.net) mode policy novar layout
        answer.items) }
{
    let Files {
        alphabet,
        net,
        text,
        dics,
    } = files;
    let applied = apply(alloc, &text, &alphabet, &dics)?;
    drop(dics);
    let blank = Blank::new(1);
    let hits = hits_of::<Brand>(
        alloc, &net, &text, &alphabet, &applied, mode, policy, novar, blank,
    )?;
    let Layout { left, right, sort } = layout;
    let concordance = concord_hits(alloc, &text, hits.as_slice(), left, right, sort)?;
    Ok(concordance.into_bytes())
}
