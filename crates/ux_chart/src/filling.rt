//! Filling a chart: part by part, and position by position from the last one back.

ghost use Rattle.std.specs.Prelude.{◌≡◌, ◌+◌, [], length, Some, slice_get, IfOk, IfSome, OnOk};
ghost use Rattle.std.specs.List.Sorted.{IsStrictlyIncreasing};
ghost use Rattle.ux_parts.specs.Ordered.{GoesAhead};
ghost use Rattle.ux_parts.specs.Parts.{ArePartsOf};
ghost use Rattle.ux_chart.specs.Alike.{IsSharing};
ghost use Rattle.ux_chart.specs.ClosingStates.{AreClosing};
ghost use Rattle.ux_chart.specs.Likely.{AreKnown, AreLikely};
ghost use Rattle.ux_chart.specs.Prepared.{IsPrepared};
ghost use Rattle.ux_chart.specs.Rows.{IsAnswer, IsFilled, IsChart, IsWholeRow, AreBegun, begun_at};
ghost use Rattle.ux_chart.specs.Tables.{IsPut};

use crate::basis::Basis;
use crate::chart::{Begun, Chart};
use crate::closing_states::ClosingStates;
use crate::config::Config;
use crate::gathering::{closers_in, ends_in};
use crate::prepared::PreparedNet;
use crate::reaching::reach;
use crate::seen::Seen;
use crate::sharing::Sharing;
use crate::table::{Stretch, Table, between};
use std::alloc::Global;
use ux_base::Mem;
use ux_net::Net;
use ux_parts::{Part, Parts};

/// What a part reaches from a position. The lists are kept from search to search.
#[derive(Drop)]
struct Lists {
    ends: Vec<usize>,
    closers: Vec<u32>,
}

impl Chart {
    /// The chart of a net over an input.
    ///
    /// It holds what is found, and a stretch of two numbers of 32 bits a position. Each part that
    /// is likely at a position is searched there once, and none where the position shares the row
    /// of a later one. No step is taken for the net by itself.
    pub fn fill<B: Basis>(alloc: Global, basis: &B, net: &Net, prepared: &PreparedNet) -> Mem<Chart>
        requires prepared { IsPrepared net.now prepared.now }
        requires ahead { GoesAhead (B.input basis.now) (B.last basis.now) }
        requires serves { B.serves basis.now net.now prepared.now.parts }
        requires known { AreKnown (B.knows basis.now) net.now }
        ensures { IfOk result (λ chart.
            IsChart (B.input basis.now) net.now prepared.now.parts (B.last basis.now) chart) }
    {
        let mut chart = empty_chart(alloc, basis.last());
        fill_rows(
            alloc,
            basis,
            net,
            &prepared.parts,
            &prepared.closing,
            prepared.sharing,
            &mut chart,
        )?;
        Ok(chart)
    }
}

/// A chart with no row. Takes no memory.
fn empty_chart(alloc: Global, last: usize) -> Chart
    ensures last { result.last ≡ last }
    ensures rows { result.rows.items ≡ [] }
    ensures table { result.table.answers.items ≡ [] }
{
    Chart {
        last,
        rows: Vec::new(alloc),
        table: Table::new(alloc),
    }
}

/// Fills all rows, that of the last position first.
fn fill_rows<B: Basis>(
    alloc: Global,
    basis: &B,
    net: &Net,
    parts: &Parts,
    closing: &ClosingStates,
    sharing: Sharing,
    chart: &mut Chart,
) -> Mem<()>
    requires parts { ArePartsOf net.now parts.now }
    requires ahead { GoesAhead (B.input basis.now) (B.last basis.now) }
    requires serves { B.serves basis.now net.now parts.now }
    requires known { AreKnown (B.knows basis.now) net.now }
    requires closing { AreClosing net.now closing.now }
    requires sharing { IsSharing net.now sharing }
    requires last { chart.old.last ≡ B.last basis.now }
    requires rows { chart.old.rows.items ≡ [] }
    requires table { chart.old.table.answers.items ≡ [] }
    ensures { OnOk result
        (IsChart (B.input basis.now) net.now parts.now (B.last basis.now) chart.new) }
{
    let mut seen = Seen::new(alloc);
    let mut found = Vec::new(alloc);
    let mut positions = Vec::new(alloc);
    let mut likely = Vec::new(alloc);
    let mut lists = no_lists(alloc);
    'rows: while chart.rows.len() <= chart.last {
        let done = chart.rows.len();
        let at = chart.last - done;
        let row = next_row(
            alloc,
            basis,
            net,
            parts,
            closing,
            sharing,
            chart,
            at,
            &mut likely,
            &mut seen,
            &mut found,
            &mut positions,
            &mut lists,
        )?;
        chart.rows.push(row)?;
    }
    Ok(())
}

/// The row of a position: that of a later one that shares it, or else one of its own, whose answers
/// are added to the table.
fn next_row<B: Basis>(
    alloc: Global,
    basis: &B,
    net: &Net,
    parts: &Parts,
    closing: &ClosingStates,
    sharing: Sharing,
    chart: &mut Chart,
    at: usize,
    likely: &mut Vec<u32>,
    seen: &mut Seen,
    found: &mut Vec<Config>,
    positions: &mut Vec<usize>,
    lists: &mut Lists,
) -> Mem<Stretch>
    requires parts { ArePartsOf net.now parts.now }
    requires ahead { GoesAhead (B.input basis.now) (B.last basis.now) }
    requires serves { B.serves basis.now net.now parts.now }
    requires known { AreKnown (B.knows basis.now) net.now }
    requires closing { AreClosing net.now closing.now }
    requires sharing { IsSharing net.now sharing }
    requires last { chart.old.last ≡ B.last basis.now }
    requires begun { AreBegun (B.input basis.now) net.now parts.now chart.old }
    requires count { length chart.old.rows.items + at ≡ chart.old.last }
    ensures same { chart.new.last ≡ chart.old.last }
    ensures rows { chart.new.rows.items ≡ chart.old.rows.items }
    ensures begun { OnOk result (AreBegun (B.input basis.now) net.now parts.now chart.new) }
    ensures row { IfOk result (λ row.
        IsWholeRow (B.input basis.now) net.now parts.now chart.new.table row at) }
{
    if let Some(row) = shared_row(basis, net, parts, sharing, chart, at) {
        return Ok(row);
    }
    fill_row(
        alloc, basis, net, parts, closing, chart, at, likely, seen, found, positions, lists,
    )
}

/// The row of a later position that is alike, if it tells of both: where no part stays at that
/// position.
fn shared_row<B: Basis>(
    basis: &B,
    net: &Net,
    parts: &Parts,
    sharing: Sharing,
    chart: &Chart,
    at: usize,
) -> Option<Stretch>
    requires ahead { GoesAhead (B.input basis.now) (B.last basis.now) }
    requires sharing { IsSharing net.now sharing }
    requires last { chart.now.last ≡ B.last basis.now }
    requires begun { AreBegun (B.input basis.now) net.now parts.now chart.now }
    requires count { length chart.now.rows.items + at ≡ chart.now.last }
    ensures { IfSome result (λ row.
        IsWholeRow (B.input basis.now) net.now parts.now chart.now.table row at) }
{
    match sharing {
        Sharing::Alike => {
            let later = basis.alike(at)?;
            let row = chart.rows[chart.last - later];
            if chart.table.some_ends_from(row, later) {
                return None;
            }
            Some(row)
        },
        Sharing::Nowhere => None,
    }
}

/// Adds the answers at a position to the table. Returns its row.
fn fill_row<B: Basis>(
    alloc: Global,
    basis: &B,
    net: &Net,
    parts: &Parts,
    closing: &ClosingStates,
    chart: &mut Chart,
    at: usize,
    likely: &mut Vec<u32>,
    seen: &mut Seen,
    found: &mut Vec<Config>,
    positions: &mut Vec<usize>,
    lists: &mut Lists,
) -> Mem<Stretch>
    requires parts { ArePartsOf net.now parts.now }
    requires ahead { GoesAhead (B.input basis.now) (B.last basis.now) }
    requires serves { B.serves basis.now net.now parts.now }
    requires known { AreKnown (B.knows basis.now) net.now }
    requires closing { AreClosing net.now closing.now }
    requires last { chart.old.last ≡ B.last basis.now }
    requires begun { AreBegun (B.input basis.now) net.now parts.now chart.old }
    requires count { length chart.old.rows.items + at ≡ chart.old.last }
    ensures same { chart.new.last ≡ chart.old.last }
    ensures rows { chart.new.rows.items ≡ chart.old.rows.items }
    ensures begun { OnOk result (AreBegun (B.input basis.now) net.now parts.now chart.new) }
    ensures row { IfOk result (λ row.
        IsWholeRow (B.input basis.now) net.now parts.now chart.new.table row at) }
{
    basis.likely(net, parts, at, likely)?;
    fill_listed(
        alloc, basis, net, parts, closing, chart, at, likely, seen, found, positions, lists,
    )
}

/// Adds the answers of the listed parts at a position to the table. Returns its row.
fn fill_listed<B: Basis>(
    alloc: Global,
    basis: &B,
    net: &Net,
    parts: &Parts,
    closing: &ClosingStates,
    chart: &mut Chart,
    at: usize,
    listed: &[u32],
    seen: &mut Seen,
    found: &mut Vec<Config>,
    positions: &mut Vec<usize>,
    lists: &mut Lists,
) -> Mem<Stretch>
    requires parts { ArePartsOf net.now parts.now }
    requires ahead { GoesAhead (B.input basis.now) (B.last basis.now) }
    requires likely { AreLikely (B.input basis.now) net.now parts.now at listed.now }
    requires serves { B.serves basis.now net.now parts.now }
    requires known { AreKnown (B.knows basis.now) net.now }
    requires closing { AreClosing net.now closing.now }
    requires last { chart.old.last ≡ B.last basis.now }
    requires begun { AreBegun (B.input basis.now) net.now parts.now chart.old }
    requires count { length chart.old.rows.items + at ≡ chart.old.last }
    ensures same { chart.new.last ≡ chart.old.last }
    ensures rows { chart.new.rows.items ≡ chart.old.rows.items }
    ensures begun { OnOk result (AreBegun (B.input basis.now) net.now parts.now chart.new) }
    ensures row { IfOk result (λ row.
        IsWholeRow (B.input basis.now) net.now parts.now chart.new.table row at) }
{
    let from = chart.table.answers.len();
    for number in listed {
        let row = between(from, chart.table.answers.len())?;
        let begun = Begun {
            at,
            number: *number,
            row,
        };
        fill_part(
            alloc, basis, net, parts, closing, chart, begun, seen, found, positions, lists,
        )?;
    }
    let row = between(from, chart.table.answers.len())?;
    Ok(row)
}

/// Adds the answer of the part whose turn it is, if there is such a part and it reaches something.
fn fill_part<B: Basis>(
    alloc: Global,
    basis: &B,
    net: &Net,
    parts: &Parts,
    closing: &ClosingStates,
    chart: &mut Chart,
    begun: Begun,
    seen: &mut Seen,
    found: &mut Vec<Config>,
    positions: &mut Vec<usize>,
    lists: &mut Lists,
) -> Mem<()>
    requires parts { ArePartsOf net.now parts.now }
    requires ahead { GoesAhead (B.input basis.now) chart.old.last }
    requires serves { B.serves basis.now net.now parts.now }
    requires known { AreKnown (B.knows basis.now) net.now }
    requires closing { AreClosing net.now closing.now }
    requires last { B.last basis.now ≡ chart.old.last }
    requires filled { IsFilled (B.input basis.now) net.now parts.now chart.old begun }
    requires end { begun.row.to ≡ length chart.old.table.answers.items }
    ensures same { chart.new.last ≡ chart.old.last }
    ensures rows { chart.new.rows.items ≡ chart.old.rows.items }
    ensures filled { OnOk result (IsFilled (B.input basis.now) net.now parts.now chart.new
        (begun_at begun.at (begun.number + 1) begun.row.from
        (length chart.new.table.answers.items))) }
{
    let Some(part) = parts.part(begun.number) else {
        return Ok(());
    };
    search(
        alloc, basis, net, parts, closing, chart, begun, part, seen, found, positions, lists,
    )?;
    put(chart, begun.number, lists)?;
    Ok(())
}

/// Adds the lists as an answer, unless both are empty.
fn put(chart: &mut Chart, number: u32, lists: &Lists) -> Mem<()>
    ensures same { chart.new.last ≡ chart.old.last }
    ensures rows { chart.new.rows.items ≡ chart.old.rows.items }
    ensures table { OnOk result (IsPut chart.old.table number lists.now.ends.items
        lists.now.closers.items chart.new.table) }
{
    if lists.ends.is_empty() && lists.closers.is_empty() {
        return Ok(());
    }
    chart.table.push(number, &lists.ends, &lists.closers)?;
    Ok(())
}

/// Puts what the part whose turn it is reaches into the lists, in place of what they have.
fn search<B: Basis>(
    alloc: Global,
    basis: &B,
    net: &Net,
    parts: &Parts,
    closing: &ClosingStates,
    chart: &Chart,
    begun: Begun,
    part: &Part,
    seen: &mut Seen,
    found: &mut Vec<Config>,
    positions: &mut Vec<usize>,
    lists: &mut Lists,
) -> Mem<()>
    requires parts { ArePartsOf net.now parts.now }
    requires ahead { GoesAhead (B.input basis.now) chart.now.last }
    requires serves { B.serves basis.now net.now parts.now }
    requires known { AreKnown (B.knows basis.now) net.now }
    requires closing { AreClosing net.now closing.now }
    requires last { B.last basis.now ≡ chart.now.last }
    requires filled { IsFilled (B.input basis.now) net.now parts.now chart.now begun }
    requires part { slice_get parts.now.list begun.number ≡ Some part.now }
    ensures { OnOk result (IsAnswer (B.input basis.now) net.now parts.now part.now.graph
        part.now.first begun.at lists.new.ends.items lists.new.closers.items) }
{
    reach(
        alloc, basis, net, parts, chart, begun, part, seen, found, positions,
    )?;
    ends_in(net, part.graph, seen.as_slice(), &mut lists.ends)?;
    let marks = closing.marks(part.graph);
    closers_in(net, part.graph, marks, seen.as_slice(), &mut lists.closers)?;
    Ok(())
}

/// Empty lists. Takes no memory.
fn no_lists(alloc: Global) -> Lists {
    Lists {
        ends: Vec::new(alloc),
        closers: Vec::new(alloc),
    }
}
