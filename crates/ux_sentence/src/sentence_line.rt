//! The line with which a sentence begins, and the head line of a file.

ghost use Rattle.std.specs.Prelude.{◌≡◌, ℕ, ◌<◌, ◌≤◌, ◌^◌, List, MatchOption, codes, ◌++◌};
ghost use Rattle.ux_sentence.specs.Files.{IsNoSentenceLine, IsSentenceLine};
ghost use Rattle.ux_sentence.specs.Openings.{OpensSentence, IsCounts, counts_text};
ghost use Rattle.ux_sentence.specs.Written.{head_line};

use crate::number::{number, number_field};

/// What the line of a sentence says.
#[derive(Clone, Copy)]
pub enum Opening {
    /// The sentence has no path.
    Empty,
    /// The sentence has so many states, and so many links on the next lines.
    Automaton { states: u64, links: u64 },
}

/// How many sentences the head line counts.
pub fn head_count(line: &str) -> Option<u32>
    ensures { MatchOption result ((n : ℕ) → n < 2 ^ 32 → line.now ≡ head_line n → ⊥)
        (λ n. line.now ≡ head_line n) }
{
    let count = number(line.strip_prefix("#TFST ")?)?;
    if count > u64::from(u32::MAX) {
        return None;
    }
    Some(count as u32)
}

/// What the line says, if it is that of the sentence of this number.
pub fn read_opening(line: &str, expected: u32) -> Option<Opening>
    ensures { MatchOption result (IsNoSentenceLine expected line.now)
        (OpensSentence expected line.now) }
{
    let (found, behind) = number_field(line.strip_prefix("S ")?)?;
    if found != u64::from(expected) {
        return None;
    }
    if behind == "EMPTY" {
        return Some(Opening::Empty);
    }
    counts(behind)
}

/// The numbers of states and links, if there are at least two states.
fn counts(text: &str) -> Option<Opening>
    ensures { MatchOption result
        ((states : ℕ) (links : ℕ) → states < 2 ^ 64 → links < 2 ^ 64 → 2 ≤ states →
        text.now ≡ counts_text states links → ⊥) (IsCounts text.now) }
{
    let (states, behind) = number_field(text)?;
    let links = number(behind)?;
    if states < 2 {
        return None;
    }
    Some(Opening::Automaton { states, links })
}
