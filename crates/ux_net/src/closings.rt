//! Where contexts that may not follow are closed, looked up by the state into which one opens.

ghost use Rattle.std.specs.Prelude.{◌≡◌};
ghost use Rattle.ux_net.specs.Closings.{closing_in, Ascend};

use crate::net_graph::Closing;

/// The state that the entries tell for a state, if they do: a binary search.
pub(crate) fn told(entries: &[Closing], state: u32) -> Option<u32>
    requires { Ascend entries.now }
    ensures { result ≡ closing_in entries.now state }
{
    match entries.binary_search_by_key(&state, |entry| entry.opening) {
        Ok(at) => Some(entries[at].closing),
        Err(_) => None,
    }
}
