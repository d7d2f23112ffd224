//! What is found, and what it tells.

ghost use Rattle.std.specs.Prelude.{◌≡◌, ℕ, ◌+◌, ◌-◌, ◌≤◌, ◌<◌, ◌↔◌, List, length, slice_get, Some, None, Contains};
ghost use Rattle.std.specs.List.Sorted.{IsStrictlyIncreasing};
ghost use Rattle.ux_net.specs.Nets.{net_grammar};
ghost use Rattle.ux_outputs.specs.declared.event.Event.{Event};
ghost use Rattle.ux_meaning.specs.Contexts.{Applies, IsOpening};
ghost use Rattle.ux_meaning.specs.Meaning.{Der};
ghost use Rattle.ux_parts.specs.Parts.{ArePartsOf};
ghost use Rattle.ux_chart.specs.Rows.{AreTold, IsChart, IsLaidOut, IsRowAt};
ghost use Rattle.ux_chart.specs.Search.{refused_in};
ghost use Rattle.ux_chart.specs.Tables.{IsSorted};
ghost use Rattle.ux_chart.specs.declared.table.Stretch.{Stretch};

use crate::basis::Basis;
use crate::table::{Reached, Stretch, Table};
use ux_net::{Edge, Label, Net};
use ux_parts::Parts;

/// What each part of a net reaches from each position.
#[derive(Drop)]
pub struct Chart {
    /// The last position.
    pub(crate) last: usize,
    /// A row of the table for each position, that of the last one first.
    pub(crate) rows: Vec<Stretch>,
    /// The answers.
    pub(crate) table: Table,
}

/// A row that is being filled, at the end of a chart's table.
#[derive(Clone, Copy)]
pub struct Begun {
    /// The position of the row.
    pub at: usize,
    /// The number of the part whose turn it is. Those before it are done.
    pub number: u32,
    /// The answers of the row as yet.
    pub row: Stretch,
}

impl Chart {
    /// The positions to which a graph derives from a position, ascending.
    pub fn ends<B: Basis>(
        &self,
        basis: &B,
        net: &Net,
        parts: &Parts,
        graph: u32,
        at: usize,
    ) -> &[usize]
        requires parts { ArePartsOf net.now parts.now }
        requires chart { IsChart (B.input basis.now) net.now parts.now (B.last basis.now) self.now }
        requires from { 1 ≤ graph }
        requires to { graph ≤ length net.now }
        requires inside { at ≤ B.last basis.now }
        ensures exact { (j : ℕ) → Contains result.now j ↔ ((events : List Event)
            × Der (B.input basis.now) (net_grammar net.now) graph at j events) }
        ensures ascending { IsStrictlyIncreasing result.now }
    {
        self.told(parts, graph, 0, at).ends
    }

    /// The states into which the context that an edge opens is closed, where it applies at a
    /// position, ascending.
    pub fn closers<'a, B: Basis>(
        &'a self,
        basis: &B,
        net: &Net,
        parts: &'a Parts,
        graph: u32,
        edge: &Edge,
        at: usize,
    ) -> &'a [u32]
        requires parts { ArePartsOf net.now parts.now }
        requires chart { IsChart (B.input basis.now) net.now parts.now (B.last basis.now) self.now }
        requires opens { IsOpening net.now graph edge.now }
        requires inside { at ≤ B.last basis.now }
        ensures exact { (c : ℕ) → Contains result.now c ↔
            Applies (B.input basis.now) (net_grammar net.now) parts.now.levels graph
            edge.now.label edge.now.target at c }
        ensures ascending { IsStrictlyIncreasing result.now }
    {
        let reached = self.told(parts, graph, edge.target, at);
        match &edge.label {
            Label::Negative => { refused_into(parts.closing(graph, edge.target), reached.closers) },
            _ => reached.closers,
        }
    }

    /// What the part that begins at a state reaches from a position; nothing, where none does.
    fn told(&self, parts: &Parts, graph: u32, state: u32, at: usize) -> Reached<'_>
        requires laid { IsLaidOut self.now }
        requires count { length self.now.rows.items ≡ self.now.last + 1 }
        requires inside { at ≤ self.now.last }
        ensures { (row : Stretch)
            × (slice_get self.now.rows.items (self.now.last - at) ≡ Some row)
            × AreTold parts.now self.now.table row graph state result.ends.now result.closers.now }
    {
        match parts.number(graph, state) {
            Some(number) => self.table.told(self.rows[self.last - at], number),
            None => Reached {
                ends: &[],
                closers: &[],
            },
        }
    }

    /// The same while a row is begun, at its position or behind it.
    pub(crate) fn entered(
        &self,
        begun: Begun,
        parts: &Parts,
        graph: u32,
        state: u32,
        at: usize,
    ) -> Reached<'_>
        requires laid { IsLaidOut self.now }
        requires row { IsSorted self.now.table begun.row }
        requires count { length self.now.rows.items + begun.at ≡ self.now.last }
        requires from { begun.at ≤ at }
        requires to { at ≤ self.now.last }
        ensures { (row : Stretch)
            × IsRowAt self.now begun at row
            × AreTold parts.now self.now.table row graph state result.ends.now result.closers.now }
    {
        let row = self.row_at(begun, at);
        if row.from == row.to {
            return Reached {
                ends: &[],
                closers: &[],
            };
        }
        match parts.number(graph, state) {
            Some(number) => self.table.told(row, number),
            None => Reached {
                ends: &[],
                closers: &[],
            },
        }
    }

    /// The row of a position, while one is begun.
    fn row_at(&self, begun: Begun, at: usize) -> Stretch
        requires count { length self.now.rows.items + begun.at ≡ self.now.last }
        requires from { begun.at ≤ at }
        requires to { at ≤ self.now.last }
        ensures { IsRowAt self.now begun at result }
    {
        if at == begun.at {
            return begun.row;
        }
        self.rows[self.last - at]
    }
}

/// Where a negative context goes on: where its body is closed, if no word of it applies.
pub(crate) fn refused_into<'a>(closing: &'a [u32], closers: &[u32]) -> &'a [u32]
    ensures { result.now ≡ refused_in closing.now closers.now }
{
    match closers {
        [] => closing,
        [..] => &[],
    }
}
