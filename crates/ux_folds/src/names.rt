//! Which variable an event names, what an output asks, and which names count.

ghost use Rattle.std.specs.Prelude.{◌≡◌, ◌↔◌, true, false, ℕ, IsTrue, Some, MatchOption, nat_eq, slice_get};
ghost use Rattle.std.specs.List.{ends_with};
ghost use Rattle.ux_outputs.specs.Variables.{asked_by, before_end, input, named_by, output};
ghost use Rattle.ux_folds.specs.Names.{asked_as, asked_name};

use ux_base::Txt;

/// What the text of an output asks.
#[derive(Clone, Copy)]
pub enum Question<'t> {
    /// The value of the variable, which is put out.
    Value(&'t str),
    /// Whether the variable has a value.
    IsSet(&'t str),
    /// Whether the variable has none.
    IsUnset(&'t str),
}

impl<'t> Question<'t> {
    /// The name of the variable.
    pub fn name(self) -> &'t str
        ensures { result.now ≡ asked_name (asked_as self.entry) }
    {
        match self {
            Question::Value(name) | Question::IsSet(name) | Question::IsUnset(name) => name,
        }
    }
}

/// The name of the variable that the text of an output asks.
pub fn asked_name(text: &str) -> &str
    ensures { result.now ≡ asked_name (asked_by text.now) }
{
    asked_by(text).name()
}

/// What the text of an output asks.
pub fn asked_by(text: &str) -> Question<'_>
    ensures { asked_as result ≡ asked_by text.now }
{
    if let Some(name) = before(text, ".SET") {
        return Question::IsSet(name);
    }
    if let Some(name) = before(text, ".UNSET") {
        return Question::IsUnset(name);
    }
    Question::Value(text)
}

/// The name of an output variable, which stands after a bar. None where an input is named.
pub fn output_name(text: &str) -> Option<&str>
    ensures { MatchOption result (named_by text.now ≡ input text.now)
        (λ name. named_by text.now ≡ output name.now) }
{
    text.strip_prefix('|')
}

/// The place of the name among those that count.
pub fn place_of(names: &[Txt], name: &str) -> Option<usize>
    ensures { MatchOption result ((i : ℕ) → slice_get names.now i ≡ Some name.now → ⊥)
        (λ place. slice_get names.now place ≡ Some name.now) }
{
    for place in 0..names.len() {
        if is_named(names, place, name) {
            return Some(place);
        }
    }
    None
}

/// Whether this name stands at the place.
fn is_named(names: &[Txt], place: usize, name: &str) -> bool
    ensures { IsTrue result ↔ (slice_get names.now place ≡ Some name.now) }
{
    match names.get(place) {
        Some(counted) => counted.as_str() == name,
        None => false,
    }
}

/// What stands before this end. None where the text has another end.
fn before<'t>(text: &'t str, end: &str) -> Option<&'t str>
    ensures { MatchOption result (ends_with nat_eq text.now end.now ≡ false)
        (λ front. (ends_with nat_eq text.now end.now ≡ true)
        × (front.now ≡ before_end end.now text.now)) }
{
    text.strip_suffix(end)
}
