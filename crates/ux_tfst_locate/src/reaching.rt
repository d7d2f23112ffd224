//! Which positions lie on a path of their sentence.

ghost use Rattle.std.specs.Prelude.{◌≡◌, ◌↔◌, ℕ, ◌<◌, ◌⊎◌, Contains, IfOk, IsTrue, length};
ghost use Rattle.ux_tfst_locate.specs.declared.lattice.Arc.{Arc as ArcRecord};
ghost use Rattle.ux_tfst_locate.specs.Lattices.{rows_of};
ghost use Rattle.ux_tfst_locate.specs.Reaching.{AreAhead, IsFirst, IsLast, IsLeading, IsReached, IsSoAt, is_marked};

use crate::lattice::{Arc, Lattice, Place};
use std::alloc::Global;
use ux_base::Mem;

/// Whether each position is reached from the first state of its sentence. Takes a step an arc.
pub(crate) fn reached(alloc: Global, lattice: &Lattice) -> Mem<Vec<bool>>
    requires ahead { AreAhead (length lattice.now.places.items) (rows_of lattice.now) }
    ensures count { IfOk result (λ marks.
        length marks.items ≡ length lattice.now.places.items) }
    ensures marks { IfOk result (λ marks. (i : ℕ) → IsTrue (is_marked marks.items i)
        ↔ IsReached lattice.now.places.items (rows_of lattice.now) i) }
{
    let mut marks = first_states(alloc, lattice.places.as_slice())?;
    for at in 0..lattice.places.len() {
        if marks[at] {
            mark_targets(lattice.row(at), &mut marks);
        }
    }
    Ok(marks)
}

/// Whether a last state is reached from each position. Takes a step an arc.
pub(crate) fn leading(alloc: Global, lattice: &Lattice) -> Mem<Vec<bool>>
    requires ahead { AreAhead (length lattice.now.places.items) (rows_of lattice.now) }
    ensures { IfOk result (λ marks. (i : ℕ) → IsTrue (is_marked marks.items i)
        ↔ IsLeading lattice.now.places.items (rows_of lattice.now) i) }
{
    let mut marks = last_states(alloc, lattice.places.as_slice())?;
    let count = lattice.places.len();
    for done in 0..count {
        let at = count - 1 - done;
        if some_marked(lattice.row(at), &marks) {
            marks[at] = true;
        }
    }
    Ok(marks)
}

/// A mark for each position, at which a first state is marked.
fn first_states(alloc: Global, places: &[Place]) -> Mem<Vec<bool>>
    ensures count { IfOk result (λ marks. length marks.items ≡ length places.now) }
    ensures marks { IfOk result (λ marks. (i : ℕ) → IsTrue (is_marked marks.items i)
        ↔ IsSoAt IsFirst places.now i) }
{
    let mut marks = Vec::with_capacity(alloc, places.len())?;
    for place in places {
        marks.push(place.state == 0)?;
    }
    Ok(marks)
}

/// A mark for each position, at which a last state is marked.
fn last_states(alloc: Global, places: &[Place]) -> Mem<Vec<bool>>
    ensures count { IfOk result (λ marks. length marks.items ≡ length places.now) }
    ensures marks { IfOk result (λ marks. (i : ℕ) → IsTrue (is_marked marks.items i)
        ↔ IsSoAt IsLast places.now i) }
{
    let mut marks = Vec::with_capacity(alloc, places.len())?;
    for place in places {
        marks.push(place.state == place.last)?;
    }
    Ok(marks)
}

/// Marks the positions to which the arcs lead.
fn mark_targets(row: &[Arc], marks: &mut Vec<bool>)
    requires { (arc : ArcRecord) → Contains row.now arc → arc.to < length marks.old.items }
    ensures count { length marks.new.items ≡ length marks.old.items }
    ensures marked { (i : ℕ) → IsTrue (is_marked marks.new.items i)
        ↔ (IsTrue (is_marked marks.old.items i)
        ⊎ ((arc : ArcRecord) × Contains row.now arc × (arc.to ≡ i))) }
{
    for arc in row {
        marks[arc.to] = true;
    }
}

/// Whether one of the arcs leads to a marked position.
fn some_marked(row: &[Arc], marks: &[bool]) -> bool
    requires { (arc : ArcRecord) → Contains row.now arc → arc.to < length marks.now }
    ensures { IsTrue result ↔ ((arc : ArcRecord) × Contains row.now arc
        × IsTrue (is_marked marks.now arc.to)) }
{
    for arc in row {
        if marks[arc.to] {
            return true;
        }
    }
    false
}
