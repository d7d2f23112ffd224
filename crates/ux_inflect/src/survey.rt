//! Which nodes of a graph are reached, which of them lie on cycles, and ranks that fall where none
//! does.

ghost use Rattle.std.specs.Prelude.{◌≡◌, ◌+◌, ◌<◌, ◌↔◌, ℕ, [], IfOk, IsTrue, Contains, length, get_or, true, cond, map};
ghost use Rattle.ux_digraph.specs.Paths.{row_of, IsInside};
ghost use Rattle.ux_digraph.specs.Rules.{is_marked_at};
ghost use Rattle.ux_inflect.specs.Surveys.{IsSurvey, AreKept, IsLevel};

use std::alloc::Global;
use ux_base::{Lst, Mem};
use ux_digraph::{components, reached};

/// What a search from one node tells of all nodes.
#[derive(Drop)]
pub(crate) struct Survey {
    /// Whether a path leads to the node.
    pub reached: Vec<bool>,
    /// Whether the node is reached and lies on a cycle.
    pub cyclic: Vec<bool>,
    /// A number that falls along each edge of a node that is reached, where there is no cycle.
    pub ranks: Vec<usize>,
}

/// Searches from the start. Takes time linear in the rows.
pub(crate) fn search_from(alloc: Global, rows: &[Lst<usize>], start: usize) -> Mem<Survey>
    requires inside { IsInside rows.now }
    requires start { start < length rows.now }
    ensures { IfOk result (IsSurvey rows.now start) }
{
    let reached = reached(alloc, rows, start)?;
    let kept = kept_rows(alloc, rows, &reached)?;
    let numbers = components(alloc, &kept)?;
    let cyclic = on_cycles(alloc, &kept, &numbers)?;
    Ok(Survey {
        reached,
        cyclic,
        ranks: numbers,
    })
}

/// The rows of the nodes that are marked, and empty ones in the places of the others.
fn kept_rows(alloc: Global, rows: &[Lst<usize>], marks: &[bool]) -> Mem<Vec<Lst<usize>>>
    ensures { IfOk result (λ kept. AreKept rows.now marks.now kept.items) }
{
    let mut kept = Vec::with_capacity(alloc, rows.len())?;
    for node in 0..rows.len() {
        let row = kept_row(alloc, rows[node].as_slice(), is_marked(marks, node))?;
        kept.push(Lst::new(row))?;
    }
    Ok(kept)
}

/// The row, or an empty one where its node isn't marked.
fn kept_row(alloc: Global, row: &[usize], is_kept: bool) -> Mem<Vec<usize>>
    ensures { IfOk result (λ kept. kept.items ≡ cond is_kept row.now []) }
{
    if !is_kept {
        return Ok(Vec::new(alloc));
    }
    let row = Vec::from_slice(alloc, row)?;
    Ok(row)
}

/// For each node whether an edge of it leads to a node of the same number.
fn on_cycles(alloc: Global, rows: &[Lst<usize>], numbers: &[usize]) -> Mem<Vec<bool>>
    ensures { IfOk result (λ marks. (u : ℕ) → (is_marked_at marks.items u ≡ true) ↔
        IsLevel (row_of rows.now u) numbers.now (get_or numbers.now u 0)) }
{
    let mut marks = Vec::with_capacity(alloc, rows.len())?;
    for node in 0..rows.len() {
        let number = number_of(numbers, node);
        marks.push(is_level(rows[node].as_slice(), numbers, number))?;
    }
    Ok(marks)
}

/// Whether a node of the row has the number.
fn is_level(row: &[usize], numbers: &[usize], number: usize) -> bool
    ensures { IsTrue result ↔ IsLevel row.now numbers.now number }
{
    for node in row {
        if number_of(numbers, *node) == number {
            return true;
        }
    }
    false
}

/// The number of a node, or 0 where it has none.
pub(crate) fn number_of(numbers: &[usize], node: usize) -> usize
    ensures { result ≡ get_or numbers.now node 0 }
{
    match numbers.get(node) {
        Some(number) => *number,
        None => 0,
    }
}

/// Whether the node is marked.
pub(crate) fn is_marked(marks: &[bool], node: usize) -> bool
    ensures { result ≡ is_marked_at marks.now node }
{
    match marks.get(node) {
        Some(mark) => *mark,
        None => false,
    }
}
