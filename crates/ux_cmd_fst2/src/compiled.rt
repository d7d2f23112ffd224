//! The compiled grammar as a file.

ghost use Rattle.std.specs.Prelude.{IfErr, IfOk};
ghost use Rattle.ux_base.specs.Outside.{IsLater};
ghost use Rattle.ux_plan.specs.Commands.{Answers};
ghost use Rattle.ux_plan.specs.Plans.{Halts};
ghost use Rattle.ux_cmd_fst2.specs.Fst2.{fst2 as fst2_command};

use std::alloc::Global;
use ux_base::Folder;
use ux_fst2::print;
use ux_grammars::read_net;
use ux_plan::Stop;
use ux_reasons::Reason;
use ux_texts::read_alphabet;

/// Reads an alphabet and a grammar, and gives the text of its net. With `chars` each
/// letter is a word of its own.
#[tactic(auto, using(ux_plan::proofs::PlanSteps::plan_steps))]
pub fn fst2<F: Folder>(
    alloc: Global,
    graph: &str,
    alphabet: &str,
    chars: bool,
    folder: &mut F,
) -> Result<Vec<u8>, Stop<Reason>>
    ensures later { IsLater (F.seen folder.old) (F.seen folder.new) }
    ensures ok { IfOk result (λ answer.
        Answers (fst2_command graph.now alphabet.now chars) (F.seen folder.old).files
        answer.items) }
    ensures err { IfErr result (Halts (fst2_command graph.now alphabet.now chars).plan
        (F.seen folder.old) (F.seen folder.new)) }
{
    let alphabet = read_alphabet(alloc, alphabet, chars, folder)?;
    let net = read_net(alloc, graph, &alphabet, folder)?;
    let file = print(alloc, &net)?;
    Ok(file.into_bytes())
}
