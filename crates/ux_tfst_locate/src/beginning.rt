//! Which parts are worth a search at a position of sentences.
//!
//! A part reaches something only where its first state is final or an edge of that leads on: one
//! whose label matches what leads from the position, or a call where the part that it calls is worth
//! a search, and that part comes before.

ghost use Rattle.std.specs.Prelude.{◌≡◌, ◌+◌, ◌↔◌, ℕ, Some, Contains, IsTrue, OnOk, length, slice_get};
ghost use Rattle.std.specs.List.Sorted.{IsStrictlyIncreasing};
ghost use Rattle.ux_parts.specs.Ordered.{GoesAhead};
ghost use Rattle.ux_parts.specs.Parts.{ArePartsOf};
ghost use Rattle.ux_parts.specs.declared.part.Part.{Part};
ghost use Rattle.ux_chart.specs.Likely.{AreLikely};
ghost use Rattle.ux_text_chart.specs.Likely.{IsLikelyRow, IsListed, MayBegin, MayLeadTo, SomeLeads};
ghost use Rattle.ux_tfst_locate.specs.Bases.{input_of};

use crate::basis::LatticeBasis;
use ux_base::{Mem, NoMemory};
use ux_net::{Edge, Label, Net};
use ux_parts::Parts;

/// Puts the numbers of the parts that may reach something from a position into the list, in place
/// of what it has, ascending. Takes a look at the edges of each part's first state.
pub(crate) fn likely_parts(
    basis: &LatticeBasis<'_>,
    net: &Net,
    parts: &Parts,
    at: usize,
    row: &mut Vec<u32>,
) -> Mem<()>
    requires ahead { GoesAhead (input_of basis.now) (length basis.now.lattice.now.places.items) }
    requires parts { ArePartsOf net.now parts.now }
    ensures { OnOk result (AreLikely (input_of basis.now) net.now parts.now at row.new.items) }
{
    row.clear();
    let count = parts.list.as_slice().len();
    if count > u32::MAX as usize {
        return Err(NoMemory);
    }
    for number in 0..count as u32 {
        add_part(basis, net, parts, number, at, row)?;
    }
    Ok(())
}

/// Adds the number of the part, if it may reach something from a position.
fn add_part(
    basis: &LatticeBasis<'_>,
    net: &Net,
    parts: &Parts,
    number: u32,
    at: usize,
    row: &mut Vec<u32>,
) -> Mem<()>
    requires ahead { GoesAhead (input_of basis.now) (length basis.now.lattice.now.places.items) }
    requires parts { ArePartsOf net.now parts.now }
    requires row { IsLikelyRow (input_of basis.now) net.now parts.now row.old.items at number }
    ensures { OnOk result
        (IsLikelyRow (input_of basis.now) net.now parts.now row.new.items at (number + 1)) }
{
    if may_begin(basis, net, parts, number, at, row) {
        row.push(number)?;
        return Ok(());
    }
    Ok(())
}

/// Whether there is a part of this number, and it may reach something from a position. Those before it
/// that may stand in the row.
fn may_begin(
    basis: &LatticeBasis<'_>,
    net: &Net,
    parts: &Parts,
    number: u32,
    at: usize,
    row: &[u32],
) -> bool
    requires row { IsStrictlyIncreasing row.now }
    ensures { IsTrue result ↔ ((part : Part) × (slice_get parts.now.list number ≡ Some part)
        × MayBegin (input_of basis.now) net.now parts.now row.now part at) }
{
    let Some(part) = parts.part(number) else {
        return false;
    };
    let Some(state) = net.state(part.graph, part.first) else {
        return false;
    };
    state.is_final || some_leads(basis, parts, row, state.edges.as_slice(), at)
}

/// Whether one of the edges may lead on from a position.
fn some_leads(
    basis: &LatticeBasis<'_>,
    parts: &Parts,
    row: &[u32],
    edges: &[Edge],
    at: usize,
) -> bool
    requires row { IsStrictlyIncreasing row.now }
    ensures { IsTrue result ↔ SomeLeads (input_of basis.now) parts.now row.now edges.now at }
{
    for edge in edges {
        if leads(basis, parts, row, &edge.label, at) {
            return true;
        }
    }
    false
}

/// Whether a label may lead on from a position: a call, where the part that it calls may.
fn leads(basis: &LatticeBasis<'_>, parts: &Parts, row: &[u32], label: &Label, at: usize) -> bool
    requires row { IsStrictlyIncreasing row.now }
    ensures { IsTrue result ↔ MayLeadTo (input_of basis.now) parts.now row.now label.now at }
{
    match label {
        Label::Call(graph) => is_listed(parts, row, *graph),
        Label::CaseFolded(_) | Label::CaseExact(_) | Label::Mask(_) | Label::Brace(_) => {
            some_match(basis, label, at)
        }
        Label::Space => false,
        Label::Empty
        | Label::NoSpace
        | Label::Begin(_)
        | Label::End(_)
        | Label::Positive
        | Label::Negative
        | Label::ContextEnd
        | Label::Cut => true,
    }
}

/// Whether the label matches the reading of an arc that leads from the position.
fn some_match(basis: &LatticeBasis<'_>, label: &Label, at: usize) -> bool
    ensures { IsTrue result ↔ ((k : ℕ) × (input_of basis.now).Takes label.now at k) }
{
    let row = basis.lattice.row(at);
    for arc in row {
        if basis.readings.matches(label, arc.reading, basis.alphabet) {
            return true;
        }
    }
    false
}

/// Whether the part of a graph, if there is one, stands in the row.
fn is_listed(parts: &Parts, row: &[u32], graph: u32) -> bool
    requires { IsStrictlyIncreasing row.now }
    ensures { IsTrue result ↔ IsListed parts.now row.now graph }
{
    match parts.number(graph, 0) {
        Some(number) => is_among(row, number),
        None => true,
    }
}

/// Whether the number stands in the row. It is looked up by halving.
fn is_among(row: &[u32], number: u32) -> bool
    requires { IsStrictlyIncreasing row.now }
    ensures { IsTrue result ↔ Contains row.now number }
{
    match row.binary_search(&number) {
        Ok(_) => true,
        Err(_) => false,
    }
}
