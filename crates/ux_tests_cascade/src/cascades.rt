//! Cascades of two steps, of a text and of its tokens.

ghost use Rattle.std.specs.Prelude.{◌≡◌, IfOk, length};

use crate::comparing::compare;
use crate::fronts::Fronts;
use std::alloc::Global;
use std::test::Fail;
use ux_alphabet::Alphabet;
use ux_base::{Mem, Txt};
use ux_cascade::{Finder, Outcome, Rewritten, apply_steps, cascade, rewrite, trace_text};
use ux_tokens::Text;

/// What the steps leave of `a b`, and the rounds before it. The first step makes `b- b` of it. Then `b`
/// is the first token, and `c` in its place, which the second step's second round leaves as it is.
const OUTCOME: &str = "1 1 1\n2 1 1\n2 2 1\nc- b";

/// The first step puts `b-`, the second one `c`.
fn fronts(alloc: Global) -> Mem<Fronts>
    ensures { IfOk result (λ fronts. length fronts.texts.items ≡ 2) }
{
    let mut texts = Vec::new(alloc);
    texts.push(Txt::from_str(alloc, "b-")?)?;
    texts.push(Txt::from_str(alloc, "c")?)?;
    Ok(Fronts { texts })
}

/// The letters of the text.
fn letters(alloc: Global) -> Result<Alphabet, Fail> {
    Ok(Alphabet::read(alloc, "#az\n")?)
}

/// The rounds of a cascade, a line each, and its text.
fn told(alloc: Global, outcome: &Outcome) -> Mem<String> {
    let mut told = trace_text(alloc, outcome.rounds.as_slice())?;
    told.push_str(outcome.text.as_str())?;
    Ok(told)
}

/// The cascade of the text.
fn of_text(alloc: Global) -> Result<String, Fail> {
    let (alphabet, fronts) = (letters(alloc)?, fronts(alloc)?);
    let text = String::from_str(alloc, "a b")?;
    let outcome = cascade(alloc, text, &alphabet, &[1, 9], &fronts)?;
    Ok(told(alloc, &outcome)?)
}

/// The cascade of its tokens.
fn of_tokens(alloc: Global) -> Result<String, Fail> {
    let (alphabet, fronts) = (letters(alloc)?, fronts(alloc)?);
    let text = Text::read(alloc, String::from_str(alloc, "a b")?, &alphabet)?;
    let outcome = apply_steps(alloc, text, &alphabet, &[1, 9], &fronts)?;
    Ok(told(alloc, &outcome)?)
}

/// The text after one hit of the first step.
fn after_one_hit(alloc: Global) -> Result<Rewritten, Fail> {
    let (alphabet, fronts) = (letters(alloc)?, fronts(alloc)?);
    let text = Text::read(alloc, String::from_str(alloc, "a b")?, &alphabet)?;
    let hits = fronts.find(alloc, 0, &text)?;
    Ok(rewrite(alloc, &text, hits.as_slice())?)
}

#[test]
fn steps_follow_each_other(rt: HostRuntime) -> Result<(), Fail> {
    compare(&rt, "a text", of_text(rt.alloc())?.as_str(), OUTCOME);
    compare(&rt, "its tokens", of_tokens(rt.alloc())?.as_str(), OUTCOME);
    Ok(())
}

#[test]
fn a_hit_is_rewritten(rt: HostRuntime) -> Result<(), Fail> {
    let made = after_one_hit(rt.alloc())?;
    compare(&rt, "the text", made.text.as_str(), "b- b");
    compare(&rt, "how many hits", made.spans, 1);
    Ok(())
}
