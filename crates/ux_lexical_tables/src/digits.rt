//! Runs of digits.
//!
//! `<NB>` accepts all digits from a token on. Where each of the digits is asked, the run is gone along
//! once, and its end is known at the later ones.

ghost use Rattle.std.specs.Prelude.{◌≡◌, ◌↔◌, ◌<◌, ◌≤◌, ◌∷◌, [], ℕ, IsTrue, length};
ghost use Rattle.ux_lexical_tables.specs.Accepting.{IsDigitAt};
ghost use Rattle.ux_lexical_tables.specs.Digits.{IsDigitRun};

use crate::spans::may_bound;
use ux_tokens::Text;

/// The run of digits that was found last, from a token up to another.
#[derive(Drop)]
pub struct DigitRun {
    /// The place from which it is known.
    from: usize,
    /// The first place after it.
    to: usize,
}

impl DigitRun {
    /// No run.
    pub fn none() -> DigitRun
        ensures from { result.from ≡ 0 }
        ensures to { result.to ≡ 0 }
    {
        DigitRun { from: 0, to: 0 }
    }

    /// The first place from a token on at which no digit stands. Takes time in the digits from there,
    /// unless the run is known.
    pub(crate) fn end(&mut self, text: &Text, i: usize) -> usize
        requires inside { i < length text.now }
        requires run { IsDigitRun text.now self.old }
        ensures run { IsDigitRun text.now self.new }
        ensures from { i ≤ result }
        ensures each { (place : ℕ) → i ≤ place → place < result → IsDigitAt text.now place }
        ensures all { IsDigitAt text.now result → ⊥ }
    {
        if self.from <= i && i < self.to {
            return self.to;
        }
        let end = digits_end(text, i);
        *self = DigitRun { from: i, to: end };
        end
    }
}

/// The first place from the token on at which no digit stands.
fn digits_end(text: &Text, i: usize) -> usize
    requires { i < length text.now }
    ensures from { i ≤ result }
    ensures each { (place : ℕ) → i ≤ place → place < result → IsDigitAt text.now place }
    ensures all { IsDigitAt text.now result → ⊥ }
{
    let count = text.len();
    for place in i..count {
        if !is_digit(text, place) {
            return place;
        }
    }
    count
}

/// Whether a digit stands at the place.
fn is_digit(text: &Text, place: usize) -> bool
    requires { place < length text.now }
    ensures { IsTrue result ↔ IsDigitAt text.now place }
{
    may_bound(text.kind(place)) && is_one_digit(text.token(place))
}

/// Whether the text is one digit.
fn is_one_digit(text: &str) -> bool
    ensures { IsTrue result
        ↔ ((digit : ℕ) × (48 ≤ digit) × (digit ≤ 57) × (text.now ≡ digit ∷ [])) }
{
    match text.as_bytes() {
        [byte] => byte.is_ascii_digit(),
        _ => false,
    }
}
