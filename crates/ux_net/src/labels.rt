//! What the labels of a net keep to: whether it has contexts or left marks.

ghost use Rattle.std.specs.Prelude.{◌≡◌};
ghost use Rattle.std.specs.List.{list_all};
ghost use Rattle.ux_net.specs.Nets.{each_in_graph, each_in_state};
ghost use Rattle.ux_net.specs.Labels.{test_of};

use crate::label::Label;
use crate::net_graph::NetGraph;
use crate::state::State;

/// What each label of a net may be.
#[derive(Clone, Copy)]
pub(crate) enum Kept {
    /// One that neither bounds a context nor cuts.
    Plain,
    /// One that doesn't cut.
    Uncut,
}

/// Whether each label in the graphs is so.
pub(crate) fn are_all(graphs: &[NetGraph], kept: Kept) -> bool
    ensures { result ≡ list_all (each_in_graph (test_of kept)) graphs.now }
{
    graphs.iter().all(|graph| is_graph(graph, kept))
}

/// Whether each label in the graph is.
fn is_graph(graph: &NetGraph, kept: Kept) -> bool
    ensures { result ≡ each_in_graph (test_of kept) graph.now }
{
    graph
        .states
        .as_slice()
        .iter()
        .all(|state| is_state(state, kept))
}

/// Whether each label in the state is.
fn is_state(state: &State, kept: Kept) -> bool
    ensures { result ≡ each_in_state (test_of kept) state.now }
{
    state
        .edges
        .as_slice()
        .iter()
        .all(|edge| is_label(&edge.label, kept))
}

/// Whether the label is.
fn is_label(label: &Label, kept: Kept) -> bool
    ensures { result ≡ test_of kept label.now }
{
    match label {
        Label::Empty
        | Label::CaseFolded(_)
        | Label::CaseExact(_)
        | Label::Mask(_)
        | Label::Brace(_)
        | Label::Space
        | Label::NoSpace
        | Label::Begin(_)
        | Label::End(_)
        | Label::Call(_) => true,
        Label::Positive | Label::Negative | Label::ContextEnd => matches!(kept, Kept::Uncut),
        Label::Cut => false,
    }
}
