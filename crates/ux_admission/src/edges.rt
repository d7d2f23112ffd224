//! The ways as edges between the places of all graphs, one row a place.

ghost use Rattle.std.specs.Prelude.{◌≡◌, ℕ, ◌<◌, ◌↔◌, List, [], ◌∷◌, ◌++◌, length, get_or, slice_set, All, Contains, IfOk, OnOk, IsTrue, false};
ghost use Rattle.ux_digraph.specs.Paths.{row_of};
ghost use Rattle.ux_boxes.specs.Fit.{IsFit};
ghost use Rattle.ux_boxes.specs.Numbers.{AreOffsets};
ghost use Rattle.ux_admission.specs.Ways.{AreWays, AreFreeMarks, IsOpen, entered_by, opened_by};
ghost use Rattle.ux_admission.specs.Gains.{Gains, SoOfOne};
ghost use Rattle.ux_admission.specs.Spots.{IsFreePair, IsEntryPair};
ghost use Rattle.ux_admission.specs.Cycles.{AreFreeEdges, AreAllEdges};

use crate::way::{Passage, Way};
use std::alloc::{AllocError, Global};
use std::mem;
use ux_base::{Lst, Mem};
use ux_boxes::{Place, count_of};

/// The edges of the steps that may take nothing, and of contexts.
pub fn free_rows(
    alloc: Global,
    graphs: &[Lst<Place>],
    offsets: &[usize],
    ways: &[Way],
    marks: &[bool],
) -> Mem<Vec<Lst<usize>>>
    requires fit { All (IsFit (length graphs.now)) graphs.now }
    requires offsets { AreOffsets graphs.now offsets.now }
    requires ways { AreWays graphs.now ways.now }
    requires marks { AreFreeMarks graphs.now marks.now }
    ensures { IfOk result (λ rows. AreFreeEdges graphs.now rows.items) }
{
    let mut pairs = Vec::new(alloc);
    push_free_pairs(&mut pairs, ways, marks)?;
    let rows = rows_of(alloc, count_of(graphs, offsets), &pairs)?;
    Ok(rows)
}

/// The edges of the steps that may take nothing, of contexts, and of the steps that enter a unit.
pub fn all_rows(
    alloc: Global,
    graphs: &[Lst<Place>],
    offsets: &[usize],
    ways: &[Way],
    marks: &[bool],
) -> Mem<Vec<Lst<usize>>>
    requires fit { All (IsFit (length graphs.now)) graphs.now }
    requires offsets { AreOffsets graphs.now offsets.now }
    requires ways { AreWays graphs.now ways.now }
    requires marks { AreFreeMarks graphs.now marks.now }
    ensures { IfOk result (λ rows. AreAllEdges graphs.now rows.items) }
{
    let mut pairs = Vec::new(alloc);
    push_free_pairs(&mut pairs, ways, marks)?;
    push_entry_pairs(&mut pairs, ways)?;
    let rows = rows_of(alloc, count_of(graphs, offsets), &pairs)?;
    Ok(rows)
}

/// Whether a way may take nothing that leads on so.
pub fn is_open(marks: &[bool], passage: Passage) -> bool
    ensures { IsTrue result ↔ IsOpen marks.now passage }
{
    match passage {
        Passage::Silent | Passage::Jumps(_) => true,
        Passage::Calls(start) => is_marked(marks, start),
        Passage::Opens => false,
    }
}

/// Whether the place is marked.
fn is_marked(marks: &[bool], place: usize) -> bool
    ensures { result ≡ get_or marks.now place false }
{
    match marks.get(place) {
        Some(mark) => *mark,
        None => false,
    }
}

/// The first place of the unit that the way enters.
pub fn entered(way: Way) -> Option<usize>
    ensures { result ≡ entered_by way.passage way.to }
{
    match way.passage {
        Passage::Silent | Passage::Jumps(_) => None,
        Passage::Calls(start) => Some(start),
        Passage::Opens => Some(way.to),
    }
}

/// The place into which the context opens that a way leads over.
pub fn opened(passage: Passage) -> Option<usize>
    ensures { result ≡ opened_by passage }
{
    match passage {
        Passage::Silent | Passage::Calls(_) | Passage::Opens => None,
        Passage::Jumps(opening) => Some(opening),
    }
}

/// Adds the edges of the ways that may take nothing.
fn push_free_pairs(
    pairs: &mut Vec<(usize, usize)>,
    ways: &[Way],
    marks: &[bool],
) -> Result<(), AllocError>
    ensures { OnOk result
        (Gains pairs.old.items pairs.new.items (SoOfOne ways.now (IsFreePair marks.now))) }
{
    for way in ways {
        push_free_pair(pairs, *way, marks)?;
    }
    Ok(())
}

/// Adds the edge of the way, if it may take nothing.
fn push_free_pair(
    pairs: &mut Vec<(usize, usize)>,
    way: Way,
    marks: &[bool],
) -> Result<(), AllocError>
    ensures { OnOk result (Gains pairs.old.items pairs.new.items (IsFreePair marks.now way)) }
{
    if !is_open(marks, way.passage) {
        return Ok(());
    }
    pairs.push((way.from, way.to))?;
    Ok(())
}

/// Adds the edges of the ways that enter a unit.
fn push_entry_pairs(pairs: &mut Vec<(usize, usize)>, ways: &[Way]) -> Result<(), AllocError>
    ensures { OnOk result
        (Gains pairs.old.items pairs.new.items (SoOfOne ways.now IsEntryPair)) }
{
    for way in ways {
        push_entry_pair(pairs, *way)?;
    }
    Ok(())
}

/// Adds the edge of the way, if it enters a unit.
fn push_entry_pair(pairs: &mut Vec<(usize, usize)>, way: Way) -> Result<(), AllocError>
    ensures { OnOk result (Gains pairs.old.items pairs.new.items (IsEntryPair way)) }
{
    if let Some(start) = entered(way) {
        pairs.push((way.from, start))?;
    }
    Ok(())
}

/// The edges by the places from which they lead.
pub fn rows_of(alloc: Global, size: usize, pairs: &[(usize, usize)]) -> Mem<Vec<Lst<usize>>>
    requires inside { All (λ (p : ℕ × ℕ). p.0 < size) pairs.now }
    ensures len { IfOk result (λ rows. length rows.items ≡ size) }
    ensures rows { IfOk result (λ rows.
        (u v : ℕ) → Contains (row_of rows.items u) v ↔ Contains pairs.now (u, v)) }
{
    let mut rows = empty_rows(alloc, size)?;
    for pair in pairs {
        put(alloc, &mut rows, pair.0, pair.1)?;
    }
    Ok(rows)
}

/// An empty row for each place.
pub fn empty_rows(alloc: Global, size: usize) -> Mem<Vec<Lst<usize>>>
    ensures len { IfOk result (λ rows. length rows.items ≡ size) }
    ensures empty { IfOk result (λ rows. (u : ℕ) → row_of rows.items u ≡ []) }
{
    let mut rows = Vec::new(alloc);
    for _ in 0..size {
        rows.push(Lst::new(Vec::new(alloc)))?;
    }
    Ok(rows)
}

/// Puts the place at the end of the row.
pub fn put(alloc: Global, rows: &mut Vec<Lst<usize>>, u: usize, v: usize) -> Result<(), AllocError>
    requires inside { u < length rows.now.items }
    ensures len { OnOk result (length rows.new.items ≡ length rows.old.items) }
    ensures put { OnOk result (rows.new.items ≡
        slice_set rows.old.items u (row_of rows.old.items u ++ v ∷ [])) }
{
    let mut row = mem::replace(&mut rows[u], Lst::new(Vec::new(alloc))).into_vec();
    row.push(v)?;
    rows[u] = Lst::new(row);
    Ok(())
}
