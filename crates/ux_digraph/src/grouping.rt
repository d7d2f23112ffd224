//! The strongly connected components of a graph.
//!
//! One search, depth first, by the path-based algorithm of H. N. Gabow, "Path-based depth-first
//! search for strong and biconnected components" (2000). Nodes that were met and have no number yet
//! are open. They stand on a trail, in the order in which they were met; the targets of their edges
//! that are to be followed yet stand in a second list, ahead. Groups cut both lists: the nodes of a
//! group lead to each other and to those of later groups. Each time the last target is taken:
//!
//! - a new node is opened, in a group of its own;
//! - an open node is led to by the last group and leads to it, so all groups from its own on become
//!   one;
//! - a node with a number changes nothing.
//!
//! Where the last group has no target left, its nodes lead to each other and to nodes with numbers
//! alone. So they are a component, and get the next number. Each node is opened and closed once and
//! each edge is followed once: the time is linear.
//!
//! A search of the edges and one of the edges turned round, as usual in textbooks, wants a second
//! table of edges and a proof that speaks of two searches.

ghost use Rattle.std.specs.Prelude.{◌≡◌, ◌≢◌, ℕ, ◌+◌, ◌<◌, ◌≤◌, ◌↔◌, List, [], ◌∷◌, ◌++◌, length, map, take, IfOk, OnOk, IfSome, IfNone, IsTrue, get_or, slice_set, Contains};
ghost use Rattle.ux_digraph.specs.Paths.{row_of, IsInside};
ghost use Rattle.ux_digraph.specs.Components.{AreComponents};
ghost use Rattle.ux_digraph.specs.Grouping.{mark_at, number_of, KeepsMet, Resting, Searching, ArePlaced, Rises, AreJoined, AreNumbered, steps_left};
ghost use Rattle.ux_digraph.specs.declared.grouping.Mark.TheVariants.{New, Open, Done};
ghost use Rattle.ux_digraph.specs.declared.grouping.Group.{Group};

use std::alloc::{AllocError, Global};
use ux_base::{Lst, Mem};

/// How far the search has come with a node.
#[derive(Clone, Copy)]
pub enum Mark {
    /// It wasn't met.
    New,
    /// It stands at this place among the open nodes.
    Open(usize),
    /// Its component has this number.
    Done(usize),
}

/// Open nodes that lead to each other: those from a place on, up to the next group.
#[derive(Clone, Copy)]
pub struct Group {
    /// The place of the first node among the open nodes.
    pub first: usize,
    /// The place of the first target among those ahead.
    pub ahead: usize,
}

/// The number of the component of each node. Numbers never rise along an edge, so in a graph with
/// no cycle they fall along each edge.
pub fn components(alloc: Global, edges: &[Lst<usize>]) -> Mem<Vec<usize>>
    requires inside { IsInside edges.now }
    ensures { IfOk result (λ numbers. AreComponents edges.now numbers.items) }
{
    let mut marks = vec![in alloc; Mark::New; edges.len()]?;
    let mut count = 0;
    for node in 0..edges.len() {
        count = visit(alloc, edges, &mut marks, count, node)?;
    }
    let numbers = numbers_of(alloc, &marks)?;
    Ok(numbers)
}

/// Numbers the components that the node leads to, unless it has a number. Returns the next number.
fn visit(
    alloc: Global,
    edges: &[Lst<usize>],
    marks: &mut Vec<Mark>,
    count: usize,
    node: usize,
) -> Result<usize, AllocError>
    requires inside { IsInside edges.now }
    requires resting { Resting edges.now marks.now.items count }
    requires node { node < length edges.now }
    requires len { length marks.now.items ≡ length edges.now }
    ensures resting { IfOk result (λ after. Resting edges.now marks.new.items after) }
    ensures keeps { OnOk result (KeepsMet marks.old.items marks.new.items) }
    ensures met { OnOk result (mark_at marks.new.items node ≢ New) }
{
    if !is_new(marks[node]) {
        return Ok(count);
    }
    let mut count = count;
    let mut trail = Vec::new(alloc);
    let mut ahead = Vec::new(alloc);
    let mut groups = Vec::new(alloc);
    open_node(edges, marks, &mut trail, &mut ahead, &mut groups, node)?;
    while let Some(group) = groups.pop() {
        count = step(
            edges,
            marks,
            &mut trail,
            &mut ahead,
            &mut groups,
            count,
            group,
        )?;
    }
    Ok(count)
}

/// Whether the node wasn't met.
fn is_new(mark: Mark) -> bool
    ensures { IsTrue result ↔ (mark ≡ New) }
{
    match mark {
        Mark::New => true,
        Mark::Open(_) | Mark::Done(_) => false,
    }
}

/// Follows the last edge of the last group, or closes the group. Returns the next number.
fn step(
    edges: &[Lst<usize>],
    marks: &mut Vec<Mark>,
    trail: &mut Vec<usize>,
    ahead: &mut Vec<usize>,
    groups: &mut Vec<Group>,
    count: usize,
    group: Group,
) -> Result<usize, AllocError>
    requires inside { IsInside edges.now }
    requires searching { Searching edges.now marks.now.items trail.now.items ahead.now.items
        (groups.now.items ++ group ∷ []) count }
    requires len { length marks.now.items ≡ length edges.now }
    ensures searching { IfOk result (λ after.
        Searching edges.now marks.new.items trail.new.items ahead.new.items
        groups.new.items after) }
    ensures keeps { OnOk result (KeepsMet marks.old.items marks.new.items) }
    ensures falls { OnOk result (
        steps_left edges.now marks.new.items ahead.new.items groups.new.items
        < steps_left edges.now marks.old.items ahead.old.items
        (groups.old.items ++ group ∷ [])) }
{
    let Some(target) = next_target(ahead, group.ahead) else {
        close(marks, trail, group.first, count);
        return Ok(count + 1);
    };
    groups.push(group)?;
    match marks[target] {
        Mark::New => {
            open_node(edges, marks, trail, ahead, groups, target)?;
            return Ok(count);
        },
        Mark::Open(place) => {
            join(groups, place)?;
            return Ok(count);
        },
        Mark::Done(_) => return Ok(count),
    }
}

/// Takes the last target ahead, if any is left after the first ones.
fn next_target(ahead: &mut Vec<usize>, first: usize) -> Option<usize>
    requires first { first ≤ length ahead.now.items }
    ensures none { IfNone result ((length ahead.old.items ≡ first)
        × (ahead.new.items ≡ ahead.old.items)) }
    ensures some { IfSome result (λ target. (first ≤ length ahead.new.items)
        × (ahead.old.items ≡ ahead.new.items ++ target ∷ [])) }
{
    if ahead.as_slice().len() == first {
        return None;
    }
    ahead.pop()
}

/// Opens a node, in a group of its own, and puts the targets of its edges ahead.
fn open_node(
    edges: &[Lst<usize>],
    marks: &mut Vec<Mark>,
    trail: &mut Vec<usize>,
    ahead: &mut Vec<usize>,
    groups: &mut Vec<Group>,
    node: usize,
) -> Result<(), AllocError>
    requires node { node < length edges.now }
    requires len { length marks.now.items ≡ length edges.now }
    ensures marks { OnOk result (marks.new.items
        ≡ slice_set marks.old.items node (Open (length trail.old.items))) }
    ensures trail { OnOk result (trail.new.items ≡ trail.old.items ++ node ∷ []) }
    ensures ahead { OnOk result (ahead.new.items ≡ ahead.old.items ++ row_of edges.now node) }
    ensures groups { OnOk result (groups.new.items ≡ groups.old.items ++
        record { first = length trail.old.items; ahead = length ahead.old.items } ∷ []) }
{
    groups.push(Group {
        first: trail.as_slice().len(),
        ahead: ahead.as_slice().len(),
    })?;
    marks[node] = Mark::Open(trail.as_slice().len());
    trail.push(node)?;
    ahead.extend_from_slice(edges[node].as_slice())?;
    Ok(())
}

/// Joins the groups that begin after the place to the last one that doesn't.
fn join(groups: &mut Vec<Group>, place: usize) -> Result<(), AllocError>
    requires rises { Rises groups.now.items }
    ensures { OnOk result (AreJoined groups.old.items place groups.new.items) }
{
    while let Some(group) = groups.pop() {
        if group.first <= place {
            groups.push(group)?;
            return Ok(());
        }
    }
    Ok(())
}

/// Gives the number to the open nodes from the first place on, and takes them off the list.
fn close(marks: &mut Vec<Mark>, trail: &mut Vec<usize>, first: usize, number: usize)
    requires places { ArePlaced marks.now.items trail.now.items }
    requires first { first ≤ length trail.now.items }
    requires inside { (i : ℕ) → i < length trail.now.items →
        get_or trail.now.items i 0 < length marks.now.items }
    ensures marks { AreNumbered marks.old.items first (length trail.old.items) number
        marks.new.items }
    ensures trail { trail.new.items ≡ take first trail.old.items }
{
    for place in first..trail.as_slice().len() {
        marks[trail[place]] = Mark::Done(number);
    }
    trail.truncate(first);
}

/// The numbers that the marks give.
fn numbers_of(alloc: Global, marks: &[Mark]) -> Result<Vec<usize>, AllocError>
    ensures { IfOk result (λ numbers. numbers.items ≡ map number_of marks.now) }
{
    let mut numbers = Vec::new(alloc);
    for mark in marks {
        numbers.push(number(*mark))?;
    }
    Ok(numbers)
}

/// The number that the mark gives.
fn number(mark: Mark) -> usize
    ensures { result ≡ number_of mark }
{
    match mark {
        Mark::Done(number) => number,
        Mark::New | Mark::Open(_) => 0,
    }
}
