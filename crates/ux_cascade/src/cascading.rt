//! A cascade: one step after the other.

ghost use Rattle.std.specs.Prelude.{◌≤◌, IfOk, IfErr, OnOk, length, string_bytes};
ghost use Rattle.ux_cascade.specs.Cascades.{AreOfSomeText, IsCascade, IsCascadeOf};
ghost use Rattle.ux_cascade.specs.Refusing.{LeavesTooMany, RefusesCascade, RefusesSteps, IsTooLong};

use crate::between::whole;
use crate::error::CascadeError;
use crate::finder::Finder;
use crate::outcome::Outcome;
use crate::rounds::take_rounds;
use std::alloc::Global;
use ux_alphabet::Alphabet;
use ux_base::{Lst, Txt};
use ux_tokens::Text;

/// What a text comes to when steps are applied to it, one after the other, each so many times to what
/// the time before left. There are as many steps as numbers of times.
///
/// A round takes what its step's hits take, and the time in which its text is read.
pub fn cascade<F: Finder>(
    alloc: Global,
    text: String,
    alphabet: &Alphabet,
    times: &[u32],
    finder: &F,
) -> Result<Outcome, CascadeError>
    requires { length times.now ≤ F.steps finder.now }
    ensures ok { IfOk result
        (IsCascadeOf alphabet.now (F.finds finder.now) times.now (string_bytes text)) }
    ensures exact { OnOk result
        (IsTooLong alphabet.now (F.finds finder.now) times.now (string_bytes text) → ⊥) }
    ensures err { IfErr result
        (RefusesCascade alphabet.now (F.finds finder.now) times.now (string_bytes text)) }
{
    let text = Text::read(alloc, text, alphabet)?;
    apply_steps(alloc, text, alphabet, times, finder)
}

/// The same, of a text that is cut into tokens by the alphabet.
pub fn apply_steps<F: Finder>(
    alloc: Global,
    text: Text,
    alphabet: &Alphabet,
    times: &[u32],
    finder: &F,
) -> Result<Outcome, CascadeError>
    requires inside { length times.now ≤ F.steps finder.now }
    requires cut { AreOfSomeText alphabet.now text }
    ensures ok { IfOk result (IsCascade alphabet.now (F.finds finder.now) times.now text) }
    ensures exact { OnOk result
        (LeavesTooMany alphabet.now (F.finds finder.now) times.now text → ⊥) }
    ensures err { IfErr result
        (RefusesSteps alphabet.now (F.finds finder.now) times.now text) }
{
    let mut text = text;
    let mut rounds = Vec::new(alloc);
    for (step, count) in times.iter().enumerate() {
        text = take_rounds(alloc, step, *count, text, alphabet, finder, &mut rounds)?;
    }
    Ok(Outcome {
        text: Txt::from_str(alloc, whole(&text))?,
        rounds: Lst::new(rounds),
    })
}
