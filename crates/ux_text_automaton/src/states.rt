//! The states of a sentence: one before each token other than a space, and one behind all of them.

ghost use Rattle.std.specs.Prelude.{◌≡◌, ◌+◌, ◌<◌, ◌≤◌, IfOk, if◌then◌else◌, length};
ghost use Rattle.ux_tokens.specs.Tokens.{Token};
ghost use Rattle.ux_text_automaton.specs.Candidates.{AreStates};
ghost use Rattle.ux_text_automaton.specs.Runs.{is_no_space, state_at};

use crate::run::Run;
use std::alloc::Global;
use ux_base::Mem;
use ux_tokens::{Kind, Text};

/// The number of the state before each token of the run, and behind its last one. Takes a step a
/// token.
pub(crate) fn states_of(alloc: Global, text: &Text, run: Run) -> Mem<Vec<u64>>
    requires in_order { run.first ≤ run.end }
    requires within { run.end ≤ length text.now }
    ensures { IfOk result (λ states. AreStates text.now run.first run.end states.items) }
{
    let mut states = Vec::new(alloc);
    let mut state: u64 = 0;
    states.push(state)?;
    for place in run.first..run.end {
        state = state_after(text.kind(place), state);
        states.push(state)?;
    }
    Ok(states)
}

/// The state behind a token of this kind, where that one is the state before it.
fn state_after(kind: Kind, state: u64) -> u64
    requires { state < u64.MAX }
    ensures { result ≡ (if is_no_space kind then state + 1 else state) }
{
    match kind {
        Kind::Space => state,
        Kind::Word | Kind::Other | Kind::Sentence | Kind::Stop | Kind::Tag => state + 1,
    }
}

/// The state before the token at a place, or behind the run's last one.
pub(crate) fn state_before(text: &Text, states: &[u64], run: Run, place: usize) -> u64
    requires states { AreStates text.now run.first run.end states.now }
    requires from { run.first ≤ place }
    requires to { place ≤ run.end }
    ensures { result ≡ state_at text.now run.first place }
{
    states[place - run.first]
}
