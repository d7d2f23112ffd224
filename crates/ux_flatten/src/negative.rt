//! Which states are inside contexts that may not follow.
//!
//! A unit is negative where it is the body of a context that may not follow, or of one that opens at a
//! negative state; a state is negative where a run from the first place of such a unit leads to it. The
//! negative states follow by rules: along an edge, into a context, and over one, to where it is closed.
//! That a context opens into a state from a negative one has a number of its own, so there is one rule
//! for each closer of a place, and not for each edge that opens a context there.

ghost use Rattle.std.specs.Prelude.{◌≡◌, ◌↔◌, ◌+◌, ◌++◌, ◌*◌, ◌<◌, ◌≤◌, ℕ, IfOk, OnOk, [], get_or, length, map, true};
ghost use Rattle.std.specs.List.{flat_map};
ghost use Rattle.ux_digraph.specs.Rules.{Derived, is_marked_at};
ghost use Rattle.ux_net.specs.StateGraphs.{AreInsideStates};
ghost use Rattle.ux_flatten.specs.Negative.{AreNegativeRows, StandInside, follows as follows_by, opened_by, opened_in as all_opened, opened_of_edge, opened_of_state, rules_from, rules_in, rules_of_edge, rules_of_places, rules_of_state, rules_over};
ghost use Rattle.ux_flatten.specs.Paths.{StayInside};

use std::alloc::Global;
use ux_admission::closers_of;
use ux_base::{Lst, Mem};
use ux_boxes::offsets_of;
use ux_digraph::{Rule, closure};
use ux_net::{Edge, Label, State, StateGraph};
use ux_state_places::place_states;

/// For each graph, which states are negative.
pub(crate) fn negative_states(alloc: Global, graphs: &[StateGraph]) -> Mem<Vec<Lst<bool>>>
    requires inside { AreInsideStates graphs.now }
    ensures { IfOk result (λ rows. AreNegativeRows graphs.now rows.items) }
{
    let placed = place_states(alloc, graphs)?;
    let closers = closers_of(alloc, &placed.places)?;
    let offsets = offsets_of(alloc, &placed.places)?;
    let mut rows = Vec::new(alloc);
    for graph in graphs {
        let number = rows.len();
        let stands = row_at(&placed.states, number);
        let before = offsets[number];
        let row = negative_in(alloc, graph.states.as_slice(), stands, &closers, before)?;
        rows.push(Lst::new(row))?;
    }
    Ok(rows)
}

/// The row of this number; nothing, where there is none.
pub(crate) fn row_at<T>(rows: &[Lst<T>], number: usize) -> &[T]
    ensures { result.now ≡ get_or rows.now number [] }
{
    match rows.get(number) {
        Some(row) => row.as_slice(),
        None => &[],
    }
}

/// Which of a graph's states are negative: for each of its places the state for which it stands, and of
/// all places where contexts are closed, with so many before those of the graph.
fn negative_in(
    alloc: Global,
    states: &[State],
    stands: &[u32],
    closers: &[Lst<usize>],
    before: usize,
) -> Mem<Vec<bool>>
    requires few { length states.now < 4294967296 }
    requires inside { StayInside states.now }
    requires stand { StandInside stands.now states.now }
    requires room { before + length stands.now < 18446744073709551616 }
    ensures { IfOk result (λ marks. (x : ℕ) → (is_marked_at marks.items x ≡ true)
        ↔ Derived (rules_in states.now stands.now closers.now before) (all_opened states.now) x) }
{
    let count = states.len();
    let mut rules = Vec::new(alloc);
    push_rules(&mut rules, count, states)?;
    push_over(&mut rules, count, stands, closers, before)?;
    let opened = opened_in(alloc, states)?;
    closure(alloc, 2 * count, &rules, &opened)
}

/// Adds the rules of the edges of all states.
fn push_rules(rules: &mut Vec<Rule>, count: usize, states: &[State]) -> Mem<()>
    requires few { count < 4294967296 }
    ensures { OnOk result (rules.new.items ≡ rules.old.items ++ rules_from count 0 states.now) }
{
    for a in 0..states.len() {
        push_state(rules, count, a, states[a].edges.as_slice())?;
    }
    Ok(())
}

/// Adds the rules of the edges of a state.
fn push_state(rules: &mut Vec<Rule>, count: usize, a: usize, edges: &[Edge]) -> Mem<()>
    requires few { count < 4294967296 }
    ensures { OnOk result
        (rules.new.items ≡ rules.old.items ++ flat_map (rules_of_edge count a) edges.now) }
{
    for edge in edges {
        push_edge(rules, count, a, edge)?;
    }
    Ok(())
}

/// Adds the rules of an edge.
fn push_edge(rules: &mut Vec<Rule>, count: usize, a: usize, edge: &Edge) -> Mem<()>
    requires few { count < 4294967296 }
    ensures { OnOk result (rules.new.items ≡ rules.old.items ++ rules_of_edge count a edge.now) }
{
    let target = edge.target as usize;
    match &edge.label {
        Label::Positive | Label::Negative => {
            rules.push(follows(a, count + target))?;
            rules.push(follows(count + target, target))?;
            Ok(())
        },
        Label::ContextEnd => Ok(()),
        Label::Empty
        | Label::CaseFolded(_)
        | Label::CaseExact(_)
        | Label::Mask(_)
        | Label::Brace(_)
        | Label::Space
        | Label::NoSpace
        | Label::Begin(_)
        | Label::End(_)
        | Label::Cut
        | Label::Call(_) => {
            rules.push(follows(a, target))?;
            Ok(())
        },
    }
}

/// The rule that the place holds where the premise does.
fn follows(premise: usize, place: usize) -> Rule
    ensures { result ≡ follows_by premise place }
{
    Rule {
        place,
        first: premise,
        second: premise,
    }
}

/// Adds the rules over contexts, by the places of the graph.
fn push_over(
    rules: &mut Vec<Rule>,
    count: usize,
    stands: &[u32],
    closers: &[Lst<usize>],
    before: usize,
) -> Mem<()>
    requires few { count < 4294967296 }
    requires room { before + length stands.now < 18446744073709551616 }
    ensures { OnOk result (rules.new.items
        ≡ rules.old.items ++ rules_of_places count stands.now closers.now before) }
{
    for place in 0..stands.len() {
        push_place(rules, count, stands, place, row_at(closers, before + place))?;
    }
    Ok(())
}

/// Adds the rules over contexts that open into what the place stands for, by where they are closed.
fn push_place(
    rules: &mut Vec<Rule>,
    count: usize,
    stands: &[u32],
    place: usize,
    closers: &[usize],
) -> Mem<()>
    requires few { count < 4294967296 }
    ensures { OnOk result
        (rules.new.items ≡ rules.old.items ++ rules_over count stands.now place closers.now) }
{
    let premise = count + stand_of(stands, place);
    for closer in closers {
        rules.push(follows(premise, stand_of(stands, *closer)))?;
    }
    Ok(())
}

/// The state for which a place stands.
fn stand_of(stands: &[u32], place: usize) -> usize
    ensures stand { result ≡ get_or stands.now place 0 }
    ensures few { result < 4294967296 }
{
    match stands.get(place) {
        Some(state) => *state as usize,
        None => 0,
    }
}

/// The states into which contexts open that may not follow.
fn opened_in(alloc: Global, states: &[State]) -> Mem<Vec<usize>>
    ensures { IfOk result (λ opened. opened.items ≡ all_opened states.now) }
{
    let mut opened = Vec::new(alloc);
    for state in states {
        push_opened(&mut opened, state.edges.as_slice())?;
    }
    Ok(opened)
}

/// Adds those into which an edge opens one.
fn push_opened(opened: &mut Vec<usize>, edges: &[Edge]) -> Mem<()>
    ensures { OnOk result
        (opened.new.items ≡ opened.old.items ++ flat_map opened_of_edge edges.now) }
{
    for edge in edges {
        push_opened_by(opened, edge)?;
    }
    Ok(())
}

/// Adds that into which the edge does.
fn push_opened_by(opened: &mut Vec<usize>, edge: &Edge) -> Mem<()>
    ensures { OnOk result (opened.new.items ≡ opened.old.items ++ opened_of_edge edge.now) }
{
    match &edge.label {
        Label::Negative => {
            opened.push(edge.target as usize)?;
            Ok(())
        },
        Label::Empty
        | Label::CaseFolded(_)
        | Label::CaseExact(_)
        | Label::Mask(_)
        | Label::Brace(_)
        | Label::Space
        | Label::NoSpace
        | Label::Begin(_)
        | Label::End(_)
        | Label::Positive
        | Label::ContextEnd
        | Label::Cut
        | Label::Call(_) => Ok(()),
    }
}
