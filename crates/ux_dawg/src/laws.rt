//! What the contracts decide: the automaton, to the numbers of its states.

ghost use Rattle.std.specs.Prelude.{◌≡◌};
ghost use Rattle.ux_dawg.specs.Automaton.{IsMinimalOf};

use crate::dawg::Dawg;
use crate::state::Form;

/// Two automata of the same forms have the same states with the same numbers.
pub fn forms_decide_states(forms: &[Form], first: &Dawg, second: &Dawg)
    requires first { IsMinimalOf forms.now first.now }
    requires second { IsMinimalOf forms.now second.now }
    ensures { first.now ≡ second.now }
{}
