//! Which parts are worth a search at a position of a text.
//!
//! A part reaches something only where its first state is final or an edge of that leads on. What
//! the index of parts lists with a token is searched there. Of what is tried everywhere the labels
//! are tried first, which takes less than a search. A call leads on only where the part that it
//! calls is worth a search, and that part comes before.

ghost use Rattle.std.specs.Prelude.{◌≡◌, ◌+◌, ◌↔◌, ℕ, List, Some, Contains, IsTrue, OnOk, length, slice_get};
ghost use Rattle.std.specs.List.Sorted.{IsStrictlyIncreasing};
ghost use Rattle.ux_net.specs.declared.state.Edge.{Edge};
ghost use Rattle.ux_parts.specs.Ordered.{GoesAhead};
ghost use Rattle.ux_parts.specs.Parts.{ArePartsOf};
ghost use Rattle.ux_parts.specs.declared.part.Part.{Part};
ghost use Rattle.ux_chart.specs.Likely.{AreKnown, AreLikely};
ghost use Rattle.ux_text_chart.specs.NetTables.{IsTokenAt};
ghost use Rattle.ux_mask_table.specs.MaskedTexts.{IsKnown};
ghost use Rattle.ux_text_chart.specs.Leading.{input_of};
ghost use Rattle.ux_walk.specs.Settings.{masked_setting};
ghost use Rattle.ux_text_chart.specs.PartIndexes.{IsPartIndex};
ghost use Rattle.ux_text_chart.specs.Likely.{IsLikelyRow, IsListed, MayBegin, MayLeadTo, SomeLeads};

use crate::leading::may_lead;
use crate::net_tables::TokenAt;
use crate::part_index::PartIndex;
use ux_base::Mem;
use ux_mask_table::MaskedText;
use ux_net::{Edge, Label};
use ux_parts::Parts;

/// Puts the numbers of the parts that may reach something from a position into the list, in place
/// of what it has, ascending. Takes a look-up for each part that may begin at the token there or is
/// tried everywhere.
pub fn likely_parts(
    text: &MaskedText<'_>,
    parts: &Parts,
    index: &PartIndex,
    token: TokenAt,
    at: usize,
    row: &mut Vec<u32>,
) -> Mem<()>
    requires known { AreKnown (IsKnown text.now) text.now.net.now }
    requires ahead { GoesAhead (input_of (masked_setting text.now)) (length text.now.text.now) }
    requires parts { ArePartsOf text.now.net.now parts.now }
    requires index { (texts : List (List ℕ))
        × IsPartIndex text.now.alphabet.now texts text.now.net.now parts.now index.now
        × IsTokenAt texts text.now.text.now at token }
    ensures { OnOk result (AreLikely (input_of (masked_setting text.now)) text.now.net.now
        parts.now at row.new.items) }
{
    row.clear();
    let mut from = 0;
    'parts: while let Some(number) = index.next(token, from) {
        add_part(text, parts, index, number, at, row)?;
        from = number as usize + 1;
    }
    Ok(())
}

/// Adds the number of the part, if it may reach something from a position.
fn add_part(
    text: &MaskedText<'_>,
    parts: &Parts,
    index: &PartIndex,
    number: u32,
    at: usize,
    row: &mut Vec<u32>,
) -> Mem<()>
    requires known { AreKnown (IsKnown text.now) text.now.net.now }
    requires ahead { GoesAhead (input_of (masked_setting text.now)) (length text.now.text.now) }
    requires parts { ArePartsOf text.now.net.now parts.now }
    requires row { IsLikelyRow (input_of (masked_setting text.now)) text.now.net.now parts.now
        row.old.items at number }
    ensures { OnOk result (IsLikelyRow (input_of (masked_setting text.now)) text.now.net.now
        parts.now row.new.items at (number + 1)) }
{
    if may_reach(text, parts, index, number, at, row) {
        row.push(number)?;
        return Ok(());
    }
    Ok(())
}

/// Whether a part that is tried at a position may reach something from there. One that isn't tested
/// may.
fn may_reach(
    text: &MaskedText<'_>,
    parts: &Parts,
    index: &PartIndex,
    number: u32,
    at: usize,
    row: &[u32],
) -> bool
    requires known { AreKnown (IsKnown text.now) text.now.net.now }
    requires row { IsStrictlyIncreasing row.now }
    ensures { (part : Part) → slice_get parts.now.list number ≡ Some part →
        MayBegin (input_of (masked_setting text.now)) text.now.net.now parts.now row.now part at →
        IsTrue result }
{
    if !index.is_tested(number) {
        return true;
    }
    may_begin(text, parts, number, at, row)
}

/// Whether there is a part of this number, and it may reach something from a position. Those before it
/// that may stand in the row.
fn may_begin(text: &MaskedText<'_>, parts: &Parts, number: u32, at: usize, row: &[u32]) -> bool
    requires known { AreKnown (IsKnown text.now) text.now.net.now }
    requires row { IsStrictlyIncreasing row.now }
    ensures { IsTrue result ↔ ((part : Part) × (slice_get parts.now.list number ≡ Some part)
        × MayBegin (input_of (masked_setting text.now)) text.now.net.now parts.now row.now part
        at) }
{
    let Some(part) = parts.part(number) else {
        return false;
    };
    let Some(state) = text.net.state(part.graph, part.first) else {
        return false;
    };
    state.is_final || some_leads(text, parts, row, state.edges.as_slice(), at)
}

/// Whether one of the edges may lead on from a position.
fn some_leads(text: &MaskedText<'_>, parts: &Parts, row: &[u32], edges: &[Edge], at: usize) -> bool
    requires known { (edge : Edge) → Contains edges.now edge → IsKnown text.now edge.label }
    requires row { IsStrictlyIncreasing row.now }
    ensures { IsTrue result
        ↔ SomeLeads (input_of (masked_setting text.now)) parts.now row.now edges.now at }
{
    for edge in edges {
        if leads(text, parts, row, &edge.label, at) {
            return true;
        }
    }
    false
}

/// Whether a label may lead on from a position: a call, where the part that it calls may.
fn leads(text: &MaskedText<'_>, parts: &Parts, row: &[u32], label: &Label, at: usize) -> bool
    requires known { IsKnown text.now label.now }
    requires row { IsStrictlyIncreasing row.now }
    ensures { IsTrue result
        ↔ MayLeadTo (input_of (masked_setting text.now)) parts.now row.now label.now at }
{
    if let Label::Call(graph) = label {
        return is_listed(parts, row, *graph);
    }
    may_lead(text, label, at)
}

/// Whether the part of a graph, if there is one, stands in the row.
fn is_listed(parts: &Parts, row: &[u32], graph: u32) -> bool
    requires { IsStrictlyIncreasing row.now }
    ensures { IsTrue result ↔ IsListed parts.now row.now graph }
{
    match parts.number(graph, 0) {
        Some(number) => is_among(row, number),
        None => true,
    }
}

/// Whether the number stands in the row. It is looked up by halving.
fn is_among(row: &[u32], number: u32) -> bool
    requires { IsStrictlyIncreasing row.now }
    ensures { IsTrue result ↔ Contains row.now number }
{
    match row.binary_search(&number) {
        Ok(_) => true,
        Err(_) => false,
    }
}
