//! The ways by which steps come into states.

ghost use Rattle.std.specs.Prelude.{◌≡◌};
ghost use Rattle.ux_state_places.specs.Arrivals.{arriving, label_of};

use ux_net::Label;

/// How a step comes into a state.
#[derive(Clone, Copy, PartialEq, Eq, Hash)]
pub enum Kind {
    /// It takes nothing: to the hub.
    Hub,
    /// It takes a token.
    Token,
    /// It opens a context that has to follow.
    Positive,
    /// It opens a context that may not follow.
    Negative,
    /// It closes a context.
    ContextEnd,
    /// It calls this graph.
    Call(u32),
}

/// A state, and how a step comes into it.
#[derive(Clone, Copy, PartialEq, Eq, Hash)]
pub struct Arrival {
    /// The state.
    pub state: u32,
    /// How a step comes into it.
    pub kind: Kind,
}

/// How a step along this label comes into its target.
pub fn kind_of_label(label: &Label) -> Kind
    ensures { result ≡ arriving label.now }
{
    match label {
        Label::Empty | Label::NoSpace | Label::Begin(_) | Label::End(_) | Label::Cut => Kind::Hub,
        Label::CaseFolded(_)
        | Label::CaseExact(_)
        | Label::Mask(_)
        | Label::Brace(_)
        | Label::Space => { Kind::Token }
        Label::Positive => Kind::Positive,
        Label::Negative => Kind::Negative,
        Label::ContextEnd => Kind::ContextEnd,
        Label::Call(graph) => Kind::Call(*graph),
    }
}

/// The label by which a step of this kind comes into its place.
pub fn label_of_kind(kind: Kind) -> Label
    ensures { result ≡ label_of kind }
{
    match kind {
        Kind::Hub => Label::Empty,
        Kind::Token => Label::Space,
        Kind::Positive => Label::Positive,
        Kind::Negative => Label::Negative,
        Kind::ContextEnd => Label::ContextEnd,
        Kind::Call(graph) => Label::Call(graph),
    }
}
