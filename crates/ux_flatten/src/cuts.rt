//! Whether the depth leaves out a call inside a context that may not follow.
//!
//! From the depth down to 0, it is told which graphs have a copy and which a negative one: those that are
//! called at one depth have one at the next. A copy is negative where its call is at a negative state, or
//! in a negative copy. At depth 0 a call is left out.

ghost use Rattle.std.specs.Prelude.{◌≡◌, ◌↔◌, ◌++◌, ◌<◌, ◌≤◌, ℕ, Contains, IfErr, IfOk, IsTrue, OnOk, [], cond, length, true};
ghost use Rattle.std.specs.List.{flat_map};
ghost use Rattle.ux_digraph.specs.Rules.{is_marked_at};
ghost use Rattle.ux_net.specs.StateGraphs.{AreInsideStates, state_grammar};
ghost use Rattle.ux_admission.specs.Spots.{FindsFirst};
ghost use Rattle.ux_flatten.specs.Cuts.{IsNegativeCut};
ghost use Rattle.ux_admission.specs.BadContexts.{IsLeastOf};
ghost use Rattle.ux_boxes.specs.Refusing.{is_name_at};
ghost use Rattle.ux_state_places.specs.RefusingStates.{names_told};
ghost use Rattle.ux_flatten.specs.Cutting.{AreMade, Cuts, HasCall, IsCutAt, IsCutState, callee_of, callees_in, made_callees, negative_callees, turned_by as turned_from, turned_callees};
ghost use Rattle.ux_flatten.specs.Flattening.{TellsWords};
ghost use Rattle.ux_flatten.specs.Making.{RefusesCut, has_word, word_at};
ghost use Rattle.ux_flatten.specs.Negative.{AreNegativeRows};

use crate::error::FlattenError;
use crate::negative::{negative_states, row_at};
use crate::source::{Source, called, is_marked};
use std::alloc::Global;
use ux_admission::Spot;
use ux_base::{Lst, Mem, Txt};
use ux_digraph::closure;
use ux_net::{Edge, State, StateGraph};

/// Which graphs have a copy at some depth.
#[derive(Drop)]
pub(crate) struct Made {
    /// For each graph, whether it has one.
    pub copies: Vec<bool>,
    /// For each graph, whether it has a negative one.
    pub negative: Vec<bool>,
}

/// Whether a graph has a copy at some depth, and a negative one.
#[derive(Clone, Copy)]
pub(crate) struct Copied {
    /// It has a negative one.
    pub is_negative: bool,
    /// It has one.
    pub is_copied: bool,
}

/// Refuses the first state of the first graph that such a call leaves.
pub(crate) fn refuse_cuts(alloc: Global, source: &Source, depth: u32) -> Result<(), FlattenError>
    requires inside { AreInsideStates source.now.graphs.items }
    requires some { 1 ≤ length source.now.graphs.items }
    requires tells { TellsWords source.now.graphs.items (has_word source.now) }
    ensures ok { OnOk result ((g node : ℕ) →
        IsNegativeCut (state_grammar source.now.graphs.items) depth g node → ⊥) }
    ensures err { IfErr result (RefusesCut source.now.graphs.items depth) }
{
    match first_cut(alloc, source, depth)? {
        Some(spot) => Err(FlattenError::NegativeCut {
            graph: name_of(alloc, &source.graphs, spot.graph)?,
            node: spot.node as u32,
        }),
        None => Ok(()),
    }
}

/// The first such state, if there is one.
fn first_cut(alloc: Global, source: &Source, depth: u32) -> Mem<Option<Spot>>
    requires inside { AreInsideStates source.now.graphs.items }
    requires some { 1 ≤ length source.now.graphs.items }
    requires tells { TellsWords source.now.graphs.items (has_word source.now) }
    ensures { IfOk result
        (FindsFirst (IsNegativeCut (state_grammar source.now.graphs.items) depth)) }
{
    let negative = negative_states(alloc, &source.graphs)?;
    let made = made_at_zero(alloc, source, &negative, depth)?;
    Ok(first_in(&source.graphs, &negative, &made))
}

/// Which graphs have a copy at depth 0.
fn made_at_zero(alloc: Global, source: &Source, negative: &[Lst<bool>], depth: u32) -> Mem<Made>
    requires inside { AreInsideStates source.now.graphs.items }
    requires some { 1 ≤ length source.now.graphs.items }
    requires tells { TellsWords source.now.graphs.items (has_word source.now) }
    requires negative { AreNegativeRows source.now.graphs.items negative.now }
    ensures { IfOk result (AreMade source.now.graphs.items depth 0) }
{
    let mut made = main_copy(alloc, source.graphs.len())?;
    let mut left = depth;
    while left > 0 {
        made = made_below(alloc, source, negative, &made)?;
        left -= 1;
    }
    Ok(made)
}

/// At the depth the main graph has a copy alone.
fn main_copy(alloc: Global, count: usize) -> Mem<Made>
    requires { 1 ≤ count }
    ensures copies { IfOk result (λ made. (k : ℕ) →
        (is_marked_at made.copies.items k ≡ true) ↔ (k ≡ 0)) }
    ensures negative { IfOk result (λ made. (k : ℕ) → is_marked_at made.negative.items k ≡ true → ⊥) }
{
    Ok(Made {
        copies: marked(alloc, count, &[0])?,
        negative: marked(alloc, count, &[])?,
    })
}

/// Marks for the numbers of a list.
fn marked(alloc: Global, count: usize, numbers: &[usize]) -> Mem<Vec<bool>>
    requires { (x : ℕ) → Contains numbers.now x → x < count }
    ensures { IfOk result (λ marks. (x : ℕ) →
        (is_marked_at marks.items x ≡ true) ↔ Contains numbers.now x) }
{
    let marks = closure(alloc, count, &[], numbers)?;
    Ok(marks)
}

/// Which graphs have a copy one depth below.
fn made_below(alloc: Global, source: &Source, negative: &[Lst<bool>], made: &Made) -> Mem<Made>
    requires inside { AreInsideStates source.now.graphs.items }
    ensures copies { IfOk result (λ below. (x : ℕ) → (is_marked_at below.copies.items x ≡ true)
        ↔ Contains (made_callees (has_word source.now) made.now.copies.items 0
        source.now.graphs.items) x) }
    ensures negative { IfOk result (λ below. (x : ℕ) → (is_marked_at below.negative.items x ≡ true)
        ↔ Contains (turned_callees (has_word source.now) made.now.copies.items
        made.now.negative.items negative.now 0 source.now.graphs.items) x) }
{
    let count = source.graphs.len();
    let copies = made_callees_of(alloc, source, &made.copies)?;
    let turned = turned_callees_of(alloc, source, negative, made)?;
    Ok(Made {
        copies: marked(alloc, count, &copies)?,
        negative: marked(alloc, count, &turned)?,
    })
}

/// What is called by graphs that have a copy.
fn made_callees_of(alloc: Global, source: &Source, copies: &[bool]) -> Mem<Vec<usize>>
    ensures { IfOk result (λ list. list.items
        ≡ made_callees (has_word source.now) copies.now 0 source.now.graphs.items) }
{
    let mut list = Vec::new(alloc);
    for k in 0..source.graphs.len() {
        let states = source.graphs[k].states.as_slice();
        push_copied(&mut list, &source.words, is_mark(copies, k), states)?;
    }
    Ok(list)
}

/// What is called by graphs that have a negative copy, or at negative states of graphs that have one.
fn turned_callees_of(
    alloc: Global,
    source: &Source,
    negative: &[Lst<bool>],
    made: &Made,
) -> Mem<Vec<usize>>
    ensures { IfOk result (λ list. list.items ≡ turned_callees (has_word source.now)
        made.now.copies.items made.now.negative.items negative.now 0 source.now.graphs.items) }
{
    let mut list = Vec::new(alloc);
    for k in 0..source.graphs.len() {
        let copied = Copied {
            is_negative: is_mark(&made.negative, k),
            is_copied: is_mark(&made.copies, k),
        };
        let states = source.graphs[k].states.as_slice();
        push_turned(
            &mut list,
            &source.words,
            copied,
            row_at(negative, k),
            states,
        )?;
    }
    Ok(list)
}

/// Adds what a graph calls, if it has a copy.
fn push_copied(list: &mut Vec<usize>, words: &[bool], is_copied: bool, states: &[State]) -> Mem<()>
    ensures { OnOk result (list.new.items ≡ list.old.items
        ++ cond is_copied (callees_in (word_at words.now) states.now) []) }
{
    if !is_copied {
        return Ok(());
    }
    push_all(list, words, states)
}

/// Adds what gets a negative copy by a graph.
fn push_turned(
    list: &mut Vec<usize>,
    words: &[bool],
    copied: Copied,
    negative: &[bool],
    states: &[State],
) -> Mem<()>
    ensures { OnOk result (list.new.items ≡ list.old.items ++ turned_from (word_at words.now)
        copied.is_negative copied.is_copied negative.now states.now) }
{
    if copied.is_negative {
        return push_all(list, words, states);
    }
    if copied.is_copied {
        return push_negative(list, words, negative, states);
    }
    Ok(())
}

/// Adds what the states call.
fn push_all(list: &mut Vec<usize>, words: &[bool], states: &[State]) -> Mem<()>
    ensures { OnOk result
        (list.new.items ≡ list.old.items ++ callees_in (word_at words.now) states.now) }
{
    for state in states {
        push_state(list, words, state.edges.as_slice())?;
    }
    Ok(())
}

/// Adds what the negative states call.
fn push_negative(
    list: &mut Vec<usize>,
    words: &[bool],
    negative: &[bool],
    states: &[State],
) -> Mem<()>
    ensures { OnOk result (list.new.items
        ≡ list.old.items ++ negative_callees (word_at words.now) negative.now 0 states.now) }
{
    for a in 0..states.len() {
        push_marked(
            list,
            words,
            is_mark(negative, a),
            states[a].edges.as_slice(),
        )?;
    }
    Ok(())
}

/// Adds what the edges call, if their state is negative.
fn push_marked(list: &mut Vec<usize>, words: &[bool], is_negative: bool, edges: &[Edge]) -> Mem<()>
    ensures { OnOk result (list.new.items ≡ list.old.items
        ++ cond is_negative (flat_map (callee_of (word_at words.now)) edges.now) []) }
{
    if !is_negative {
        return Ok(());
    }
    push_state(list, words, edges)
}

/// Adds what the edges of a state call.
fn push_state(list: &mut Vec<usize>, words: &[bool], edges: &[Edge]) -> Mem<()>
    ensures { OnOk result (list.new.items
        ≡ list.old.items ++ flat_map (callee_of (word_at words.now)) edges.now) }
{
    for edge in edges {
        push_edge(list, words, edge)?;
    }
    Ok(())
}

/// Adds what the edge calls, if that has a word.
fn push_edge(list: &mut Vec<usize>, words: &[bool], edge: &Edge) -> Mem<()>
    ensures { OnOk result
        (list.new.items ≡ list.old.items ++ callee_of (word_at words.now) edge.now) }
{
    match called(&edge.label) {
        Some(graph) if is_marked(words, graph) => {
            list.push((graph as usize).saturating_sub(1))?;
            Ok(())
        },
        Some(_) | None => Ok(()),
    }
}

/// Whether the number is marked.
fn is_mark(marks: &[bool], number: usize) -> bool
    ensures { result ≡ is_marked_at marks.now number }
{
    match marks.get(number) {
        Some(mark) => *mark,
        None => false,
    }
}

/// The first state of the first graph that such a call leaves.
fn first_in(graphs: &[StateGraph], negative: &[Lst<bool>], made: &Made) -> Option<Spot>
    ensures { FindsFirst (IsCutState graphs.now negative.now made.now) result }
{
    for k in 0..graphs.len() {
        let states = graphs[k].states.as_slice();
        let copied = Copied {
            is_negative: is_mark(&made.negative, k),
            is_copied: is_mark(&made.copies, k),
        };
        match first_state(states, row_at(negative, k), copied) {
            Some(node) => return Some(Spot { graph: k + 1, node }),
            None => {},
        }
    }
    None
}

/// The least such state of a graph.
fn first_state(states: &[State], negative: &[bool], copied: Copied) -> Option<usize>
    ensures { IsLeastOf
        (IsCutAt states.now negative.now copied.is_negative copied.is_copied) result }
{
    for node in 0..states.len() {
        if is_cut(&states[node], copied, is_mark(negative, node)) {
            return Some(node);
        }
    }
    None
}

/// Whether a call leaves the state that is cut off so, by whether the state is negative.
fn is_cut(state: &State, copied: Copied, is_negative: bool) -> bool
    ensures { IsTrue result ↔ (Cuts copied.is_negative copied.is_copied is_negative
        × HasCall state.now.edges) }
{
    cuts(copied, is_negative) && has_call(state.edges.as_slice())
}

/// Whether calls at a state are cut off inside a context that may not follow.
fn cuts(copied: Copied, is_negative: bool) -> bool
    ensures { IsTrue result ↔ Cuts copied.is_negative copied.is_copied is_negative }
{
    copied.is_negative || (copied.is_copied && is_negative)
}

/// Whether an edge calls.
fn has_call(edges: &[Edge]) -> bool
    ensures { IsTrue result ↔ HasCall edges.now }
{
    for edge in edges {
        if called(&edge.label).is_some() {
            return true;
        }
    }
    false
}

/// The name of the graph of this number.
fn name_of(alloc: Global, graphs: &[StateGraph], graph: usize) -> Mem<Txt>
    requires from { 1 ≤ graph }
    requires to { graph ≤ length graphs.now }
    ensures { IfOk result (is_name_at (names_told graphs.now) graph) }
{
    Ok(graphs[graph - 1].name.clone()?)
}
