//! The command: files in, the rewritten text out.

ghost use Rattle.std.specs.Prelude.{◌≡◌, IfErr, IfOk, length, map, string_bytes};
ghost use Rattle.ux_base.specs.Outside.{IsLater};
ghost use Rattle.ux_dictionaries.specs.Dictionaries.{contents_of};
ghost use Rattle.ux_plan.specs.Commands.{Answers};
ghost use Rattle.ux_plan.specs.Plans.{Halts};
ghost use Rattle.ux_cascade.specs.Cascades.{AreOfSomeText};
ghost use Rattle.ux_cmd_cascade.specs.Answering.{answer_text};
ghost use Rattle.ux_cmd_cascade.specs.ByNets.{IsTextByNets, StopsByNets};
ghost use Rattle.ux_cmd_cascade.specs.Cascade.{cascade as cascade_command};

use crate::files::{Files, read_files};
use crate::searching::Searching;
use std::alloc::{AllocError, Global};
use ux_base::{Folder, Mem, Txt};
use ux_cascade::{CascadeError, Outcome, apply_steps, trace_text};
use ux_command_line::CascadeStep;
use ux_plan::{Stop, too_large};
use ux_reasons::Reason;

/// The text that the steps leave, one after the other, each as often as it says, and a line feed; or
/// what stops the cascade. The dictionaries count for every step. With `trace` a line for each round
/// stands before.
#[tactic(auto, using(ux_plan::proofs::PlanSteps::plan_steps))]
pub fn cascade<F: Folder>(
    alloc: Global,
    text: &str,
    alphabet: &str,
    steps: &[CascadeStep],
    dics: &[Txt],
    trace: bool,
    folder: &mut F,
) -> Result<Vec<u8>, Stop<Reason>>
    ensures later { IsLater (F.seen folder.old) (F.seen folder.new) }
    ensures ok { IfOk result (λ answer. Answers
        (cascade_command text.now alphabet.now steps.now dics.now trace)
        (F.seen folder.old).files answer.items) }
    ensures err { IfErr result
        (Halts (cascade_command text.now alphabet.now steps.now dics.now trace).plan
        (F.seen folder.old) (F.seen folder.new)) }
{
    let files = read_files(alloc, text, alphabet, steps, dics, folder)?;
    answer_of(alloc, text, files, steps, trace)
}

/// What answers the files, or the stop that names the text, of which a round left too many tokens.
fn answer_of(
    alloc: Global,
    name: &str,
    files: Files,
    steps: &[CascadeStep],
    trace: bool,
) -> Result<Vec<u8>, Stop<Reason>>
    requires nets { length files.nets.items ≡ length steps.now }
    requires cut { AreOfSomeText files.alphabet files.text }
    ensures ok { IfOk result (λ answer. IsTextByNets files.alphabet (contents_of files.dics.items)
        files.nets.items steps.now files.text trace answer.items) }
    ensures err { IfErr result (StopsByNets files.alphabet (contents_of files.dics.items)
        files.nets.items steps.now files.text name.now) }
{
    let times = times_of(alloc, steps)?;
    let Files {
        alphabet,
        nets,
        text,
        dics,
    } = files;
    let searching = Searching {
        alphabet: &alphabet,
        nets: nets.as_slice(),
        dics: dics.as_slice(),
    };
    match apply_steps(alloc, text, &alphabet, times.as_slice(), &searching) {
        Ok(outcome) => Ok(written(alloc, outcome, trace)?.into_bytes()),
        Err(CascadeError::TooManyTokens) => Err(too_large(alloc, name)),
        Err(CascadeError::NoMemory) => Err(Stop::NoMemory),
    }
}

/// How often each step is applied.
fn times_of(alloc: Global, steps: &[CascadeStep]) -> Result<Vec<u32>, AllocError>
    ensures { IfOk result (λ times. times.items ≡ map (λ step. step.times) steps.now) }
{
    steps.iter().map(|step| step.times).collect(alloc)
}

/// The outcome as text: the lines of the trace where it is asked for, the text, and a line feed.
fn written(alloc: Global, outcome: Outcome, trace: bool) -> Mem<String>
    ensures { IfOk result (λ written. string_bytes written ≡ answer_text trace outcome) }
{
    let Outcome { text, rounds } = outcome;
    let mut written = if trace {
        trace_text(alloc, rounds.as_slice())?
    } else {
        String::new(alloc)
    };
    written.push_str(text.as_str())?;
    written.push('\n')?;
    Ok(written)
}
