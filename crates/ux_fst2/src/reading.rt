//! Reading a compiled grammar: its tags, and its graphs as states. `specs/Reading.antt` says which
//! graphs a text says, and when it is refused.

ghost use Rattle.std.specs.Prelude.{◌≡◌, ◌⊎◌, ℕ, ◌<◌, ◌∷◌, ◌↔◌, All, IfErr, IfOk, IsTrue, MatchOption, length};
ghost use Rattle.std.specs.List.{AllZip};
ghost use Rattle.ux_fst2.specs.Files.{IsEdgeBy, IsGraphBy, IsStateBy};
ghost use Rattle.ux_fst2.specs.Inner.{IsBorneBy, IsReadTag, NamesTag, NamesTags, NamesTagsIn};
ghost use Rattle.ux_fst2.specs.Reading.{AreStateGraphs, AreTagsWhole, IsGoodTag, Refuses, SaysGraphs, StopsAtTag};
ghost use Rattle.ux_fst2.specs.Tags.{EMPTY_TAG};
ghost use Rattle.ux_fst2.specs.declared.error.Fst2Error.TheVariants.{BadTag, NoMemory as OutOfMemory};

use crate::error::Fst2Error;
use crate::tag::{Tag, read_tag};
use std::alloc::Global;
use ux_base::{Lst, Mem, Txt};
use ux_fst2_file::{Fst2Edge, Fst2Graph, Fst2Label, Fst2State, Fst2Text, bad_label};
use ux_grf::Piece;
use ux_net::{Edge, Label, State, StateGraph};

/// The graphs that the text of a compiled grammar says, or why it is refused. A net can be made of
/// them.
///
/// A tag is read once. Takes time in the text, and in what its edges bear: a tag's label and output
/// are copied for each edge that names it.
pub fn read_states(alloc: Global, text: &str) -> Result<Vec<StateGraph>, Fst2Error>
    ensures ok { IfOk result (λ graphs. SaysGraphs text.now graphs.items) }
    ensures given { IfOk result (λ graphs. AreStateGraphs graphs.items) }
    ensures err { IfErr result (λ error. (error ≡ OutOfMemory) ⊎ Refuses text.now error) }
{
    let said = ux_fst2_file::read(alloc, text)?;
    let tags = read_tags(alloc, &said)?;
    if let Some(line) = bad_label(&said) {
        return Err(Fst2Error::BadLabel { line });
    }
    Ok(graphs_of(alloc, said.file.graphs.as_slice(), tags.as_slice())?)
}

/// What the tags say, or the first bad one.
fn read_tags(alloc: Global, said: &Fst2Text) -> Result<Vec<Tag>, Fst2Error>
    ensures whole { IfOk result (λ _. AreTagsWhole said.now.file.tags said.now.is_ended) }
    ensures read { IfOk result (λ tags. AllZip IsReadTag said.now.file.tags tags.items) }
    ensures err { IfErr result (λ error. (error ≡ OutOfMemory) ⊎ ((n : ℕ) × (error ≡ BadTag n)
        × StopsAtTag said.now.file.tags said.now.is_ended n)) }
{
    let texts = said.file.tags.as_slice();
    let mut tags = Vec::new(alloc);
    for (n, text) in texts.iter().enumerate() {
        let Some(tag) = read_good(alloc, n, text.as_str())? else {
            return Err(Fst2Error::BadTag { n });
        };
        tags.push(tag)?;
    }
    if texts.is_empty() {
        return Err(Fst2Error::BadTag { n: 0 });
    }
    if !said.is_ended {
        return Err(Fst2Error::BadTag { n: texts.len() });
    }
    Ok(tags)
}

/// What the tag of this number says, if it is as it must be.
fn read_good(alloc: Global, n: usize, text: &str) -> Mem<Option<Tag>>
    ensures { IfOk result (λ some. MatchOption some (IsGoodTag n text.now → ⊥)
        (λ tag. IsGoodTag n text.now × IsReadTag text.now tag)) }
{
    if n > 0 {
        return read_tag(alloc, text);
    }
    if !is_empty_tag(text) {
        return Ok(None);
    }
    Ok(Some(Tag {
        label: Label::Empty,
        output: Lst::new(Vec::new(alloc)),
    }))
}

/// Whether the text is that of tag 0.
fn is_empty_tag(text: &str) -> bool
    ensures { IsTrue result ↔ (text.now ≡ EMPTY_TAG) }
{
    text == "%<E>"
}

/// The graphs of a text, whose edges bear these tags.
fn graphs_of(alloc: Global, graphs: &[Fst2Graph], tags: &[Tag]) -> Mem<Vec<StateGraph>>
    requires { All (NamesTagsIn (length tags.now)) graphs.now }
    ensures { IfOk result (λ told. AllZip (IsGraphBy (IsBorneBy tags.now)) graphs.now told.items) }
{
    let mut told = Vec::with_capacity(alloc, graphs.len())?;
    for graph in graphs {
        told.push(graph_of(alloc, graph, tags)?)?;
    }
    Ok(told)
}

/// A graph of a text.
fn graph_of(alloc: Global, graph: &Fst2Graph, tags: &[Tag]) -> Mem<StateGraph>
    requires { NamesTagsIn (length tags.now) graph.now }
    ensures { IfOk result (IsGraphBy (IsBorneBy tags.now) graph.now) }
{
    let states = states_of(alloc, graph.states.as_slice(), tags)?;
    Ok(StateGraph {
        name: Txt::from_str(alloc, graph.name.as_str())?,
        states: Lst::new(states),
    })
}

/// The states of a graph.
fn states_of(alloc: Global, states: &[Fst2State], tags: &[Tag]) -> Mem<Vec<State>>
    requires { All (NamesTags (length tags.now)) states.now }
    ensures { IfOk result (λ told. AllZip (IsStateBy (IsBorneBy tags.now)) states.now told.items) }
{
    let mut told = Vec::with_capacity(alloc, states.len())?;
    for state in states {
        told.push(state_of(alloc, state, tags)?)?;
    }
    Ok(told)
}

/// A state of a graph.
fn state_of(alloc: Global, state: &Fst2State, tags: &[Tag]) -> Mem<State>
    requires { NamesTags (length tags.now) state.now }
    ensures { IfOk result (IsStateBy (IsBorneBy tags.now) state.now) }
{
    let edges = edges_of(alloc, state.edges.as_slice(), tags)?;
    Ok(State {
        is_final: state.is_final,
        edges: Lst::new(edges),
    })
}

/// The edges of a state.
fn edges_of(alloc: Global, edges: &[Fst2Edge], tags: &[Tag]) -> Mem<Vec<Edge>>
    requires { All (NamesTag (length tags.now)) edges.now }
    ensures { IfOk result (λ told. AllZip (IsEdgeBy (IsBorneBy tags.now)) edges.now told.items) }
{
    let mut told = Vec::with_capacity(alloc, edges.len())?;
    for edge in edges {
        told.push(edge_of(alloc, *edge, tags)?)?;
    }
    Ok(told)
}

/// An edge of a state.
fn edge_of(alloc: Global, edge: Fst2Edge, tags: &[Tag]) -> Mem<Edge>
    requires { NamesTag (length tags.now) edge }
    ensures { IfOk result (IsEdgeBy (IsBorneBy tags.now) edge) }
{
    match edge.label {
        Fst2Label::Call(graph) => Ok(Edge {
            label: Label::Call(graph),
            output: Lst::new(Vec::new(alloc)),
            target: edge.target,
        }),
        Fst2Label::Tag(number) => {
            let tag = &tags[number as usize];
            Ok(Edge {
                label: tag.label.copy()?,
                output: copied(alloc, tag.output.as_slice())?,
                target: edge.target,
            })
        }
    }
}

/// A copy of the pieces.
fn copied(alloc: Global, pieces: &[Piece]) -> Mem<Lst<Piece>>
    ensures { IfOk result (λ copy. copy ≡ pieces.now) }
{
    let mut copy = Vec::with_capacity(alloc, pieces.len())?;
    for piece in pieces {
        copy.push(piece.copy()?)?;
    }
    Ok(Lst::new(copy))
}
