//! The files of a cascade, read in their order: the alphabet, the graphs of each step, the text, the
//! dictionaries.

ghost use Rattle.std.specs.Prelude.{IfErr, IfOk};
ghost use Rattle.ux_alphabet.specs.Letters.{Letters};
ghost use Rattle.ux_base.specs.Outside.{IsLater};
ghost use Rattle.ux_dictionaries.specs.Dictionaries.{contents_of};
ghost use Rattle.ux_plan.specs.Plans.{Halts, Reads, StopsFile, all};
ghost use Rattle.ux_texts.specs.Texts.{text_format};
ghost use Rattle.ux_cmd_cascade.specs.Files.{AreFiles, HaveNets, HasStepNet};
ghost use Rattle.ux_cmd_cascade.specs.Reading.{files_plan, step_plan};

use std::alloc::Global;
use ux_alphabet::Alphabet;
use ux_apply::Priority;
use ux_base::{Folder, Mode, Txt};
use ux_command_line::CascadeStep;
use ux_dictionaries::read_dictionaries;
use ux_grammars::read_net;
use ux_lexicon::AnyLexicon;
use ux_net::Net;
use ux_plan::Stop;
use ux_reasons::Reason;
use ux_texts::{read_alphabet, read_text};
use ux_tokens::Text;

/// The grammar of a step, and what becomes of its outputs.
#[derive(Drop)]
pub struct StepNet {
    /// The grammar, as states.
    pub net: Net,
    /// Whether outputs stand among the tokens taken, or in their place.
    pub mode: Mode,
}

/// A cascade's files, each as its reader gives it.
#[derive(Drop)]
pub struct Files {
    /// The letters.
    pub alphabet: Alphabet,
    /// The grammars of the steps, in their order.
    pub nets: Vec<StepNet>,
    /// The tokens.
    pub text: Text,
    /// The dictionaries, each with its priority.
    pub dics: Vec<(Priority, AnyLexicon)>,
}

/// Reads the files of a cascade.
#[tactic(auto, using(ux_plan::proofs::PlanSteps::plan_steps))]
pub(crate) fn read_files<F: Folder>(
    alloc: Global,
    text: &str,
    alphabet: &str,
    steps: &[CascadeStep],
    dics: &[Txt],
    folder: &mut F,
) -> Result<Files, Stop<Reason>>
    ensures later { IsLater (F.seen folder.old) (F.seen folder.new) }
    ensures ok { IfOk result (λ files. AreFiles text.now alphabet.now steps.now dics.now
        (F.seen folder.old).files files.alphabet files.nets.items files.text
        (contents_of files.dics.items)) }
    ensures err { IfErr result (Halts (files_plan text.now alphabet.now steps.now dics.now)
        (F.seen folder.old) (F.seen folder.new)) }
{
    let alphabet = read_alphabet(alloc, alphabet, false, folder)?;
    let nets = read_nets(alloc, steps, &alphabet, folder)?;
    let text = read_text(alloc, text, &alphabet, folder)?;
    let dics = read_dictionaries(alloc, dics, folder)?;
    Ok(Files {
        alphabet,
        nets,
        text,
        dics,
    })
}

/// Reads the grammars of the steps.
fn read_nets<F: Folder>(
    alloc: Global,
    steps: &[CascadeStep],
    alphabet: &Alphabet,
    folder: &mut F,
) -> Result<Vec<StepNet>, Stop<Reason>>
    ensures later { IsLater (F.seen folder.old) (F.seen folder.new) }
    ensures ok { IfOk result (λ nets.
        HaveNets alphabet.now (F.seen folder.old).files steps.now nets.items) }
    ensures err { IfErr result (Halts (all (step_plan alphabet.now) steps.now)
        (F.seen folder.old) (F.seen folder.new)) }
{
    let mut nets = Vec::new(alloc);
    for step in steps {
        let net = read_step(alloc, step, alphabet, folder)?;
        nets.push(net)?;
    }
    Ok(nets)
}

/// Reads the grammar of a step.
fn read_step<F: Folder>(
    alloc: Global,
    step: &CascadeStep,
    alphabet: &Alphabet,
    folder: &mut F,
) -> Result<StepNet, Stop<Reason>>
    ensures later { IsLater (F.seen folder.old) (F.seen folder.new) }
    ensures ok { IfOk result (HasStepNet alphabet.now (F.seen folder.old).files step.now) }
    ensures err { IfErr result (Halts (step_plan alphabet.now step.now)
        (F.seen folder.old) (F.seen folder.new)) }
{
    let net = read_net(alloc, step.graph.as_str(), alphabet, folder)?;
    Ok(StepNet {
        net,
        mode: step.mode,
    })
}
