//! Which stands may take a token, and not a space alone.

ghost use Rattle.std.specs.Prelude.{◌≡◌, ◌↔◌, false, Contains, IsTrue};
ghost use Rattle.ux_closure.specs.declared.stand.Stand.{Stand as TheStand};
ghost use Rattle.ux_net.specs.declared.state.Edge.{Edge as TheEdge};
ghost use Rattle.ux_automaton.specs.Targets.{IsEdgeOf, MayTakeToken};

use ux_closure::stand::Stand;
use ux_net::{Edge, Label, Net};

/// Whether an edge of the stands may take a token.
pub fn may_take(net: &Net, stands: &[Stand]) -> bool
    ensures { result ≡ false → (stand : TheStand) (edge : TheEdge) → Contains stands.now stand →
        IsEdgeOf net.now stand.here edge → MayTakeToken edge.label → ⊥ }
{
    for stand in stands {
        if may_stand_take(net, *stand) {
            return true;
        }
    }
    false
}

/// Whether an edge of the stand may take a token.
fn may_stand_take(net: &Net, stand: Stand) -> bool
    ensures { result ≡ false → (edge : TheEdge) → IsEdgeOf net.now stand.here edge →
        MayTakeToken edge.label → ⊥ }
{
    match net.state(stand.here.graph, stand.here.state) {
        Some(state) => may_one_take(state.edges.as_slice()),
        None => false,
    }
}

/// Whether one of the edges may take a token.
fn may_one_take(edges: &[Edge]) -> bool
    ensures { result ≡ false → (edge : TheEdge) → Contains edges.now edge →
        MayTakeToken edge.label → ⊥ }
{
    for edge in edges {
        if may_label_take(&edge.label) {
            return true;
        }
    }
    false
}

/// Whether the label may take a token.
fn may_label_take(label: &Label) -> bool
    ensures { IsTrue result ↔ MayTakeToken label.now }
{
    match label {
        Label::CaseFolded(_) | Label::CaseExact(_) | Label::Mask(_) | Label::Brace(_) => true,
        Label::Empty
        | Label::Space
        | Label::NoSpace
        | Label::Begin(_)
        | Label::End(_)
        | Label::Positive
        | Label::Negative
        | Label::ContextEnd
        | Label::Cut
        | Label::Call(_) => false,
    }
}
