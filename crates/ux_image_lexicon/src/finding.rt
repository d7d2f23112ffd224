//! The list of a form, by its letters.

ghost use Rattle.std.specs.Prelude.{◌≡◌, ◌↔◌, ◌<◌, ℕ, [], IfSome, Some, length};
ghost use Rattle.std.specs.Str.{chars};
ghost use Rattle.ux_dawg.specs.Paths.{Accepts, IsPath, IsStep, MakeAutomaton};

use ux_dawg::States;

/// The number of the list of the form that is the text, if one is. Halves the edges of each state on
/// the way, and takes no memory.
pub(crate) fn number_of(states: &States, text: &str) -> Option<u32>
    requires { MakeAutomaton states.now }
    ensures { (c : ℕ) → (result ≡ Some c) ↔ Accepts states.now (chars text.now) c }
{
    let mut number = states.len() - 1;
    for c in text.chars() {
        number = step(states, number, c)? as usize;
    }
    code_at(states, number)
}

/// The number of the list of the state of this number, if a form ends there.
fn code_at(states: &States, number: usize) -> Option<u32>
    requires { number < length states.now }
    ensures { (c : ℕ) → (result ≡ Some c) ↔ IsPath states.now number [] c }
{
    states.code(number)
}

/// The number of the state to which the character leads.
fn step(states: &States, number: usize, letter: char) -> Option<u32>
    requires automaton { MakeAutomaton states.now }
    requires within { number < length states.now }
    ensures step { (t : ℕ) → (result ≡ Some t) ↔ IsStep states.now number letter t }
    ensures within { IfSome result (λ t. t < length states.now) }
{
    states.step(number, letter)
}
