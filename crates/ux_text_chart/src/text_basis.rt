//! A text as an input of charts.

ghost use Rattle.std.specs.Prelude.{◌≡◌};
ghost use Rattle.ux_mask_table.specs.MaskedTexts.{HasTable};
ghost use Rattle.ux_text_chart.specs.NetTables.{AreTablesFor};
ghost use Rattle.ux_text_chart.specs.TextBases.{TellsParts};

use crate::beginning::likely_parts;
use crate::leading::{add_ends, alike_after};
use crate::net_tables::NetTables;
use std::alloc::Global;
use ux_base::Mem;
use ux_chart::Basis;
use ux_mask_table::MaskedText;
use ux_net::{Edge, Label, Net};
use ux_parts::Parts;
use ux_walk::config::Frame;

/// A text, with what a chart of a net asks of it.
#[derive(Drop)]
pub struct TextBasis<'a> {
    /// The text, with what the masks of the net accept in it.
    pub text: &'a MaskedText<'a>,
    /// What is looked up of the net.
    pub tables: &'a NetTables<'a>,
}

impl<'a> TextBasis<'a> {
    /// The text as an input for a chart of its net. No mask is tried. Takes no memory.
    pub fn of(text: &'a MaskedText<'a>, tables: &'a NetTables<'a>) -> TextBasis<'a>
        requires table { HasTable text.now }
        requires tables { AreTablesFor text.now.alphabet.now text.now.text.now text.now.net.now
            tables.now }
        ensures text { result.text.now ≡ text.now }
        ensures tables { result.tables.now ≡ tables.now }
        ensures serves { TellsParts result text.now.net.now tables.now.prepared.parts }
    {
        TextBasis { text, tables }
    }
}

impl<'a> Basis for TextBasis<'a> {
    ghost use Rattle.std.specs.Prelude.{length};
    ghost use Rattle.ux_mask_table.specs.MaskedTexts.{IsKnown};
    ghost use Rattle.ux_text_chart.specs.Leading.{input_of};
    ghost use Rattle.ux_walk.specs.Settings.{masked_setting};
    ghost use Rattle.ux_text_chart.specs.TextBases.{TellsParts};

    ghost input = { λ basis. input_of (masked_setting basis.text.now) };

    ghost last = { λ basis. length basis.text.now.text.now };

    ghost serves = { TellsParts };

    ghost knows = { λ basis. IsKnown basis.text.now };

    fn last(&self) -> usize {
        self.text.text.len()
    }

    fn plain(&self, label: &Label, at: usize, positions: &mut Vec<usize>) -> Mem<()> {
        add_ends(self.text, label, at, positions)
    }

    fn alike(&self, at: usize) -> Option<usize> {
        alike_after(self.text.text, at)
    }

    fn likely(&self, _net: &Net, parts: &Parts, at: usize, row: &mut Vec<u32>) -> Mem<()> {
        let token = self.tables.token_at(self.text.text, at);
        likely_parts(self.text, parts, &self.tables.index, token, at, row)
    }

    fn places(
        &self,
        alloc: Global,
        graph: u32,
        state: u32,
        edges: &[Edge],
        at: usize,
    ) -> Mem<Option<Vec<u32>>> {
        self.tables
            .places(alloc, self.text.text, Frame { graph, state }, edges, at)
    }
}
