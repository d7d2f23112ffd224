//! How places go on with more of a text.

ghost use Rattle.std.specs.Prelude.{◌++◌, ℕ, List, IfOk};
ghost use Rattle.std.specs.Str.{chars};
ghost use Rattle.ux_dawg.specs.Paths.{MakeAutomaton};
ghost use Rattle.ux_image_look_ups.specs.Ways.{HaveForms, LeadsBy};

use crate::places::Place;
use crate::steps::Taken;
use std::alloc::Global;
use ux_alphabet::Alphabet;
use ux_base::Mem;
use ux_dawg::States;

/// The place of a text with this one behind it, by that of the text. Halves the edges of each state on
/// the way, or takes a look at each where several letters fit the character, once for each state of
/// the place. Takes memory for the numbers of the states where there are several.
pub fn go_on(
    alloc: Global,
    states: &States,
    place: &Place,
    text: &str,
    alphabet: &Alphabet,
) -> Mem<Place>
    requires automaton { MakeAutomaton states.now }
    requires forms { HaveForms states.now }
    ensures { IfOk result (λ next. (front : List ℕ) →
        LeadsBy states.now alphabet.now front place.now →
        LeadsBy states.now alphabet.now (front ++ chars text.now) next) }
{
    let mut next = place.copy(alloc)?;
    for c in text.chars() {
        if next.has_state() {
            next = next.next(alloc, states, &Taken::of(c, alphabet))?;
        }
    }
    Ok(next)
}
