//! The stages of a chain of edges, and which states are bad in them.

ghost use Rattle.std.specs.Prelude.{◌≡◌, [], not};
ghost use Rattle.std.specs.List.{list_any};
ghost use Rattle.ux_net.specs.declared.state.Edge.{Edge as TheEdge};
ghost use Rattle.ux_marks.specs.declared.stage.Stage.TheVariants.{Before, Inside};
ghost use Rattle.ux_marks.specs.Marks.{after as stage_after, has_mark as has_a_mark, is_bad_there, is_closing as closes, is_empty_label, is_mark as marks, is_opening as opens, is_silent as says_nothing, may_stand_before};

use ux_net::{Edge, Label};

/// The name under which the marks come.
const MARK: &str = "<";

/// Where a chain of edges from the start of the main graph stands.
#[derive(Clone, Copy)]
pub enum Stage {
    /// It has no opening mark.
    Before,
    /// It has an opening mark, and no closing mark after that.
    Inside,
    /// It has a closing mark after the opening mark.
    Behind,
}

/// The stage after a label.
pub(crate) fn after(stage: Stage, label: &Label) -> Stage
    ensures { result ≡ stage_after stage label.now }
{
    match stage {
        Stage::Before => after_before(label),
        Stage::Inside => after_inside(label),
        Stage::Behind => Stage::Behind,
    }
}

/// The stage after a label that is met before the marks.
fn after_before(label: &Label) -> Stage
    ensures { result ≡ stage_after Before label.now }
{
    if is_opening(label) {
        Stage::Inside
    } else {
        Stage::Before
    }
}

/// The stage after a label that is met between the marks.
fn after_inside(label: &Label) -> Stage
    ensures { result ≡ stage_after Inside label.now }
{
    if is_closing(label) {
        Stage::Behind
    } else {
        Stage::Inside
    }
}

/// Whether a state of the main graph that is met in the stage is bad.
pub(crate) fn is_bad(stage: Stage, is_final: bool, edges: &[Edge]) -> bool
    ensures { result ≡ is_bad_there stage is_final edges.now }
{
    match stage {
        Stage::Before => is_final || stands_wrong(edges),
        Stage::Inside => is_final || opens_again(edges),
        Stage::Behind => says_something(edges),
    }
}

/// Whether one of the edges may not stand before the opening mark.
fn stands_wrong(edges: &[Edge]) -> bool
    ensures { result ≡ list_any (λ (edge : TheEdge). not (may_stand_before edge)) edges.now }
{
    edges.iter().any(|edge| !stands_before(edge))
}

/// Whether one of the edges is the opening mark.
fn opens_again(edges: &[Edge]) -> bool
    ensures { result ≡ list_any (λ (edge : TheEdge). opens edge.label) edges.now }
{
    edges.iter().any(|edge| is_opening(&edge.label))
}

/// Whether one of the edges isn't the empty word without output.
fn says_something(edges: &[Edge]) -> bool
    ensures { result ≡ list_any (λ (edge : TheEdge). not (says_nothing edge)) edges.now }
{
    edges.iter().any(|edge| !is_silent(edge))
}

/// Whether one of the edges is a mark.
pub(crate) fn has_mark(edges: &[Edge]) -> bool
    ensures { result ≡ has_a_mark edges.now }
{
    edges.iter().any(|edge| is_mark(&edge.label))
}

/// Whether the edge may stand before the opening mark, or is that mark.
fn stands_before(edge: &Edge) -> bool
    ensures { result ≡ may_stand_before edge.now }
{
    is_opening(&edge.label) || is_silent(edge)
}

/// Whether the edge is the empty word without output.
fn is_silent(edge: &Edge) -> bool
    ensures { result ≡ says_nothing edge.now }
{
    is_empty(&edge.label) && edge.output.as_slice().is_empty()
}

/// Whether the label is the empty word.
fn is_empty(label: &Label) -> bool
    ensures { result ≡ is_empty_label label.now }
{
    matches!(label, Label::Empty)
}

/// Whether the label is one of the marks.
fn is_mark(label: &Label) -> bool
    ensures { result ≡ marks label.now }
{
    is_opening(label) || is_closing(label)
}

/// Whether the label is `$<`.
fn is_opening(label: &Label) -> bool
    ensures { result ≡ opens label.now }
{
    match label {
        Label::Begin(name) => name.as_str() == MARK,
        _ => false,
    }
}

/// Whether the label is `$>`.
fn is_closing(label: &Label) -> bool
    ensures { result ≡ closes label.now }
{
    match label {
        Label::End(name) => name.as_str() == MARK,
        _ => false,
    }
}
