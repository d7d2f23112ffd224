//! The rounds of one step.

ghost use Rattle.std.specs.Prelude.{◌≡◌, ◌<◌, ◌++◌, ℕ, List, IfOk, IfErr, true};
ghost use Rattle.ux_alphabet.specs.Letters.{Letters};
ghost use Rattle.ux_outputs.specs.declared.hit.Hit.{Hit};
ghost use Rattle.ux_cascade.specs.Cascades.{AreOfSomeText, IsRound, TakesRounds};
ghost use Rattle.ux_cascade.specs.Refusing.{RefusesRound, RefusesStep};
ghost use Rattle.ux_cascade.specs.Rewriting.{rewritten};

use crate::between::read_alike;
use crate::error::CascadeError;
use crate::finder::Finder;
use crate::outcome::Round;
use crate::rewriting::{Rewritten, rewrite};
use std::alloc::Global;
use ux_alphabet::Alphabet;
use ux_base::Mem;
use ux_tokens::Text;

/// The text that the rounds of a step leave, so many of them. Those that are listed are put last.
///
/// A round that leaves the joined tokens as they were is the last one: those after it would do the
/// same.
pub fn take_rounds<F: Finder>(
    alloc: Global,
    step: usize,
    times: u32,
    text: Text,
    alphabet: &Alphabet,
    finder: &F,
    rounds: &mut Vec<Round>,
) -> Result<Text, CascadeError>
    requires inside { step < F.steps finder.now }
    requires cut { AreOfSomeText alphabet.now text }
    ensures ok { IfOk result (TakesRounds alphabet.now (F.finds finder.now) step times text
        rounds.old.items rounds.new.items) }
    ensures cut { IfOk result (AreOfSomeText alphabet.now) }
    ensures err { IfErr result
        (RefusesStep alphabet.now (F.finds finder.now) step times text) }
{
    let mut text = text;
    for round in 0..times {
        let (next, spans) = next_text(alloc, step, &text, alphabet, finder)?;
        rounds.push(Round {
            step,
            round: round + 1,
            spans,
        })?;
        if read_alike(&text, &next) {
            return Ok(next);
        }
        text = next;
    }
    Ok(text)
}

/// The text that one round leaves, and how many hits it rewrote.
fn next_text<F: Finder>(
    alloc: Global,
    step: usize,
    text: &Text,
    alphabet: &Alphabet,
    finder: &F,
) -> Result<(Text, u32), CascadeError>
    requires { step < F.steps finder.now }
    ensures ok { IfOk result (λ next.
        IsRound alphabet.now (F.finds finder.now) step text.now next.1 next.0) }
    ensures err { IfErr result
        (RefusesRound alphabet.now (F.finds finder.now) step text.now) }
{
    let Rewritten { text: left, spans } = rewrite_found(alloc, step, text, finder)?;
    let next = Text::read(alloc, left.into_string(), alphabet)?;
    Ok((next, spans))
}

/// The text in which the hits of a step are rewritten.
fn rewrite_found<F: Finder>(alloc: Global, step: usize, text: &Text, finder: &F) -> Mem<Rewritten>
    requires { step < F.steps finder.now }
    ensures { IfOk result (λ made. (hits : List Hit) × F.finds finder.now step text.now hits
        × (made ≡ rewritten text.now hits)) }
{
    let hits = finder.find(alloc, step, text)?;
    rewrite(alloc, text, hits.as_slice())
}
