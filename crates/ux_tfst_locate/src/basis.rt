//! Sentences side by side as an input of charts.

ghost use Rattle.std.specs.Prelude.{◌≡◌, ◌↔◌, ◌⊎◌, ℕ, Contains, IsTrue, OnOk};
ghost use Rattle.std.specs.List.{range_with_len};
ghost use Rattle.ux_tfst_locate.specs.Bases.{StaysPut, input_of};

use crate::beginning::likely_parts;
use crate::lattice::Lattice;
use std::alloc::Global;
use ux_alphabet::Alphabet;
use ux_base::Mem;
use ux_chart::Basis;
use ux_net::{Edge, Label, Net};
use ux_parts::Parts;
use ux_reading_match::Readings;

/// Sentences side by side, with their readings.
#[derive(Clone, Copy)]
pub struct LatticeBasis<'a> {
    /// The sentences.
    pub lattice: &'a Lattice,
    /// The readings, by number.
    pub readings: &'a Readings<'a>,
    /// The letters, by which labels fit.
    pub alphabet: &'a Alphabet,
}

impl<'a> Basis for LatticeBasis<'a> {
    ghost use Rattle.std.specs.Prelude.{length};
    ghost use Rattle.ux_parts.specs.Ordered.{GoesAhead};
    ghost use Rattle.ux_parts.specs.Parts.{ArePartsOf};
    ghost use Rattle.ux_tfst_locate.specs.Bases.{input_of};

    ghost input = { input_of };

    ghost last = { λ basis. length basis.lattice.now.places.items };

    ghost serves = { λ basis net parts. ArePartsOf net parts
        × GoesAhead (input_of basis) (length basis.lattice.now.places.items) };

    ghost knows = { λ basis label. Unit {0} };

    fn last(&self) -> usize {
        self.lattice.places.len()
    }

    fn plain(&self, label: &Label, at: usize, positions: &mut Vec<usize>) -> Mem<()> {
        if stays_put(label) {
            positions.push(at)?;
            return Ok(());
        }
        add_ends(self, label, at, positions)
    }

    fn alike(&self, _at: usize) -> Option<usize> {
        None
    }

    fn likely(&self, net: &Net, parts: &Parts, at: usize, row: &mut Vec<u32>) -> Mem<()> {
        likely_parts(self, net, parts, at, row)
    }

    fn places(
        &self,
        _alloc: Global,
        _graph: u32,
        _state: u32,
        _edges: &[Edge],
        _at: usize,
    ) -> Mem<Option<Vec<u32>>> {
        Ok(None)
    }
}

/// Whether the label takes nothing and stays.
fn stays_put(label: &Label) -> bool
    ensures { IsTrue result ↔ StaysPut label.now }
{
    match label {
        Label::NoSpace | Label::Begin(_) | Label::End(_) | Label::Cut => true,
        Label::Empty
        | Label::CaseFolded(_)
        | Label::CaseExact(_)
        | Label::Mask(_)
        | Label::Brace(_)
        | Label::Space
        | Label::Positive
        | Label::Negative
        | Label::ContextEnd
        | Label::Call(_) => false,
    }
}

/// Adds the positions to which arcs lead whose readings the label matches.
fn add_ends(
    basis: &LatticeBasis<'_>,
    label: &Label,
    at: usize,
    positions: &mut Vec<usize>,
) -> Mem<()>
    ensures { OnOk result ((k : ℕ) → Contains positions.new.items k
        ↔ (Contains positions.old.items k ⊎ (input_of basis.now).Takes label.now at k)) }
{
    let row = basis.lattice.row(at);
    for arc in row {
        if basis.readings.matches(label, arc.reading, basis.alphabet) {
            positions.push(arc.to)?;
        }
    }
    Ok(())
}
