//! The chart of a net over a text.

ghost use Rattle.std.specs.Prelude.{◌≡◌, ℕ, ◌≤◌, ◌↔◌, List, Contains, IfOk, length};
ghost use Rattle.std.specs.List.Sorted.{IsStrictlyIncreasing};
ghost use Rattle.ux_mask_table.specs.MaskedTexts.{HasTable};
ghost use Rattle.ux_net.specs.Nets.{net_grammar};
ghost use Rattle.ux_outputs.specs.declared.event.Event.{Event};
ghost use Rattle.ux_meaning.specs.Meaning.{Der};
ghost use Rattle.ux_meaning.specs.Contexts.{Applies, IsOpening};
ghost use Rattle.ux_text_chart.specs.Leading.{input_of};
ghost use Rattle.ux_text_chart.specs.NetTables.{AreTablesFor};
ghost use Rattle.ux_walk.specs.Settings.{masked_setting};
ghost use Rattle.ux_text_chart.specs.TextCharts.{IsTextChart, chart_setting, parts_of};

use crate::net_tables::NetTables;
use crate::text_basis::TextBasis;
use std::alloc::Global;
use ux_base::Mem;
use ux_chart::Chart;
use ux_mask_table::MaskedText;
use ux_net::Edge;
use ux_parts::Parts;

/// What the parts of a net reach from each position of a text.
#[derive(Drop)]
pub struct TextChart<'a> {
    /// The text, with what the masks of the net accept in it.
    pub basis: TextBasis<'a>,
    /// What they reach.
    pub chart: Chart,
}

impl<'a> TextChart<'a> {
    /// The chart of a text and its net. No mask is tried: what masks accept is looked up. No step is
    /// taken for the net by itself.
    pub fn fill(
        alloc: Global,
        masked: &'a MaskedText<'a>,
        tables: &'a NetTables<'a>,
    ) -> Mem<TextChart<'a>>
        requires table { HasTable masked.now }
        requires tables { AreTablesFor masked.now.alphabet.now masked.now.text.now
            masked.now.net.now tables.now }
        ensures setting { IfOk result (λ chart. chart_setting chart ≡ masked_setting masked.now) }
        ensures chart { IfOk result (λ chart. IsTextChart chart) }
    {
        let basis = TextBasis::of(masked, tables);
        let chart = Chart::fill(alloc, &basis, masked.net, &tables.prepared)?;
        Ok(TextChart { basis, chart })
    }

    /// The positions to which a graph derives from a position, ascending. Takes no memory.
    pub fn ends(&self, graph: u32, at: usize) -> &[usize]
        requires chart { IsTextChart self.now }
        requires from { 1 ≤ graph }
        requires to { graph ≤ length (chart_setting self.now).net }
        requires inside { at ≤ length (chart_setting self.now).tokens }
        ensures exactly { (j : ℕ) → Contains result.now j ↔ ((events : List Event)
            × Der (input_of (chart_setting self.now)) (net_grammar (chart_setting self.now).net)
            graph at j events) }
        ensures ascending { IsStrictlyIncreasing result.now }
    {
        self.chart.ends(
            &self.basis,
            self.basis.text.net,
            &self.basis.tables.prepared.parts,
            graph,
            at,
        )
    }

    /// The states into which the context that an edge opens is closed, where it applies at a
    /// position, ascending. Takes no memory.
    pub fn closers(&self, graph: u32, edge: &Edge, at: usize) -> &[u32]
        requires chart { IsTextChart self.now }
        requires opens { IsOpening (chart_setting self.now).net graph edge.now }
        requires inside { at ≤ length (chart_setting self.now).tokens }
        ensures exactly { (c : ℕ) → Contains result.now c ↔
            Applies (input_of (chart_setting self.now))
            (net_grammar (chart_setting self.now).net) (parts_of self.now).levels graph
            edge.now.label edge.now.target at c }
        ensures ascending { IsStrictlyIncreasing result.now }
    {
        self.chart.closers(
            &self.basis,
            self.basis.text.net,
            &self.basis.tables.prepared.parts,
            graph,
            edge,
            at,
        )
    }
}
