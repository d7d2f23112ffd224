//! The command: files in, dictionary lines out.

ghost use Rattle.std.specs.Prelude.{IfErr, IfOk};
ghost use Rattle.ux_base.specs.Outside.{IsLater};
ghost use Rattle.ux_plan.specs.Commands.{Answers};
ghost use Rattle.ux_plan.specs.Plans.{Halts};
ghost use Rattle.ux_cmd_morpho.specs.Morpho.{morpho as morpho_command};

use crate::files::read_files;
use crate::words::word_lines;
use std::alloc::Global;
use ux_base::{Folder, Txt};
use ux_plan::Stop;
use ux_reasons::Reason;

/// The lines of the entries that the grammar gives to the words of the text, by bytes, each once; or what
/// stops the command.
#[tactic(auto, using(ux_plan::proofs::PlanSteps::plan_steps))]
pub fn morpho<F: Folder>(
    alloc: Global,
    graph: &str,
    text: &str,
    alphabet: &str,
    dics: &[Txt],
    folder: &mut F,
) -> Result<Vec<u8>, Stop<Reason>>
    ensures later { IsLater (F.seen folder.old) (F.seen folder.new) }
    ensures ok { IfOk result (λ answer. Answers
        (morpho_command graph.now text.now alphabet.now dics.now)
        (F.seen folder.old).files answer.items) }
    ensures err { IfErr result
        (Halts (morpho_command graph.now text.now alphabet.now dics.now).plan
        (F.seen folder.old) (F.seen folder.new)) }
{
    let files = read_files(alloc, graph, text, alphabet, dics, folder)?;
    let lines = word_lines(alloc, graph, &files)?;
    Ok(lines.into_bytes())
}
