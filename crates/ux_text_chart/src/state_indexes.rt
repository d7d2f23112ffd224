//! Indexes of the states of a net that have many literals.
//!
//! They are made once, when a text is made the basis of charts. So where a search comes to such a
//! state, it tries those of its edges alone that may apply at the token. What they take in all is
//! bounded (`ux_walk::look_ups`): beyond that, edges are tried one by one.

ghost use Rattle.std.specs.Prelude.{◌<◌, ◌≤◌, IfOk, IsTrue, length};
ghost use Rattle.ux_tokens.specs.Numbers.{different_texts};
ghost use Rattle.ux_walk.specs.LookUps.{AreSound};

use std::alloc::Global;
use ux_alphabet::Alphabet;
use ux_base::Mem;
use ux_net::{Edge, Label, Net};
use ux_tokens::Text;
use ux_walk::config::Frame;
use ux_walk::look_ups::LookUps;

/// As many literals are tried one by one: no index of their state is made.
const FEW: usize = 8;

/// The indexes of the states of many literals.
pub fn indexes_of<'t>(
    alloc: Global,
    net: &Net,
    text: &'t Text,
    alphabet: &Alphabet,
) -> Mem<LookUps<'t>>
    ensures { IfOk result (AreSound alphabet.now net.now (different_texts text.now)) }
{
    let mut look_ups = LookUps::new(alloc);
    for before in 0..net.graphs() {
        meet_graph(alloc, net, text, alphabet, before + 1, &mut look_ups)?;
    }
    Ok(look_ups)
}

/// Makes the indexes of the states of a graph.
fn meet_graph<'t>(
    alloc: Global,
    net: &Net,
    text: &'t Text,
    alphabet: &Alphabet,
    graph: u32,
    look_ups: &mut LookUps<'t>,
) -> Mem<()>
    requires from { 1 ≤ graph }
    requires to { graph ≤ length net.now }
    requires sound { AreSound alphabet.now net.now (different_texts text.now) look_ups.old }
    ensures { AreSound alphabet.now net.now (different_texts text.now) look_ups.new }
{
    for state in 0..net.states(graph) {
        meet_state(alloc, net, text, alphabet, Frame { graph, state }, look_ups)?;
    }
    Ok(())
}

/// Makes the index of a state, if it has many literals.
fn meet_state<'t>(
    alloc: Global,
    net: &Net,
    text: &'t Text,
    alphabet: &Alphabet,
    frame: Frame,
    look_ups: &mut LookUps<'t>,
) -> Mem<()>
    requires sound { AreSound alphabet.now net.now (different_texts text.now) look_ups.old }
    ensures { AreSound alphabet.now net.now (different_texts text.now) look_ups.new }
{
    let Some(state) = net.state(frame.graph, frame.state) else {
        return Ok(());
    };
    let edges = state.edges.as_slice();
    if !has_index(edges) {
        return Ok(());
    }
    look_ups.meet(alloc, text, alphabet, frame, edges)
}

/// Whether a state of these edges gets an index: many are literals, and 32 bits tell each place.
pub fn has_index(edges: &[Edge]) -> bool
    ensures { IsTrue result → length edges.now < 4294967296 }
{
    edges.len() < 4_294_967_296 && has_many_literals(edges)
}

/// Whether more than a few of the edges are literals. Looks at no more edges than it takes to know.
fn has_many_literals(edges: &[Edge]) -> bool {
    let mut count = 0usize;
    for edge in edges {
        if matches!(&edge.label, Label::CaseFolded(_) | Label::CaseExact(_)) {
            count = count.saturating_add(1);
        }
        if FEW < count {
            return true;
        }
    }
    false
}

/// Whether the edges are so many that their state may have an index.
pub(crate) fn is_looked_up(edges: &[Edge]) -> bool {
    FEW < edges.len()
}
