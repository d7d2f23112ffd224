//! What is kept aside of states to which no run comes, looked up by their numbers.

ghost use Rattle.std.specs.Prelude.{◌≡◌, List, option_copied};
ghost use Rattle.ux_net.specs.declared.state.State.{State};
ghost use Rattle.ux_net.specs.Whole.{unmet_in, AreAside};

use crate::net_graph::UnmetState;

/// What is kept aside of a state, if there is something: a binary search.
pub(crate) fn kept_aside(entries: &[UnmetState], state: u32) -> Option<&UnmetState>
    requires { (states : List State) × AreAside entries.now states }
    ensures { option_copied result ≡ unmet_in entries.now state }
{
    match entries.binary_search_by_key(&state, |entry| entry.number) {
        Ok(at) => Some(&entries[at]),
        Err(_) => None,
    }
}
