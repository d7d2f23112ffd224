//! A text, and what the masks of a net accept in it.

ghost use Rattle.std.specs.Prelude.{◌≡◌, ℕ, ◌+◌, ◌*◌, ◌<◌, ◌≤◌, ◌↔◌, Contains, IfOk, IsTrue, OnOk, length};
ghost use Rattle.std.specs.List.Sorted.{IsStrictlyIncreasing};
ghost use Rattle.ux_lexical_tables.specs.Accepting.{Accepts};
ghost use Rattle.ux_lexical_tables.specs.Belonging.{Belongs};
ghost use Rattle.ux_mask_table.specs.MaskTables.{TellsEnds};
ghost use Rattle.ux_mask_table.specs.MaskedTexts.{AddsEnds, HasTable, IsOver, accepts_in};
ghost use Rattle.ux_mask_table.specs.NetMasks.{AreNetMasks};
ghost use Rattle.ux_net.specs.Masks.{IsMaskCount, masks_of};

use crate::mask_table::{MaskTable, Told};
use crate::net_masks::NetMasks;
use std::alloc::Global;
use std::sync::ledger::Ledger;
use ux_alphabet::Alphabet;
use ux_base::{Mem, Steps};
use ux_lexical_tables::LexicalTables;
use ux_masks::Mask;
use ux_net::Net;
use ux_tokens::Text;

/// A text, with what the masks of a net accept in it.
#[derive(Drop)]
pub struct MaskedText<'a> {
    /// The grammar.
    pub net: &'a Net,
    /// The text.
    pub text: &'a Text,
    /// The letters.
    pub alphabet: &'a Alphabet,
    /// The entries.
    pub applied: &'a LexicalTables,
    /// What the masks of the net accept.
    pub masks: MaskTable<'a>,
}

impl<'a> MaskedText<'a> {
    /// The text, with what the masks of the net accept. Each different mask takes at most one step a
    /// place; a net without masks takes none, and no time in the text.
    pub fn of<L: Ledger>(
        alloc: Global,
        net: &'a Net,
        masks: &'a NetMasks<'a>,
        text: &'a Text,
        alphabet: &'a Alphabet,
        applied: &'a LexicalTables,
        steps: &mut Steps<L>,
    ) -> Mem<MaskedText<'a>>
        requires masks { AreNetMasks net.now masks.now }
        requires belongs { Belongs alphabet.now text.now applied.now }
        ensures over { IfOk result (IsOver net.now text.now alphabet.now applied.now) }
        ensures table { IfOk result (λ masked. HasTable masked) }
        ensures steps { (count : ℕ) → IsMaskCount net.now count →
            steps.new ≤ steps.old + count * (length text.now + 1) }
    {
        let masks = MaskTable::fill(alloc, masks, text, alphabet, applied, steps)?;
        Ok(MaskedText {
            net,
            text,
            alphabet,
            applied,
            masks,
        })
    }

    /// The positions after the spans that a mask of the net accepts from a place, ascending.
    pub fn mask_ends(&self, alloc: Global, mask: &Mask, place: usize) -> Mem<Vec<usize>>
        requires table { HasTable self.now }
        requires mask { Contains (masks_of self.now.net.now) mask.now }
        ensures exactly { IfOk result (λ ends. (k : ℕ) → Contains ends.items k
            ↔ accepts_in self.now mask.now place k) }
        ensures ascending { IfOk result (λ ends. IsStrictlyIncreasing ends.items) }
    {
        let mut ends = Vec::new(alloc);
        self.add_mask_ends(mask, place, &mut ends)?;
        Ok(ends)
    }

    /// Adds the positions after the spans that a mask of the net accepts from a place, ascending.
    pub fn add_mask_ends(&self, mask: &Mask, place: usize, ends: &mut Vec<usize>) -> Mem<()>
        requires table { HasTable self.now }
        requires mask { Contains (masks_of self.now.net.now) mask.now }
        ensures { OnOk result (AddsEnds (accepts_in self.now mask.now place)
            ends.old.items ends.new.items) }
    {
        if self.text.len() <= place {
            return Ok(());
        }
        let told = self.told(mask, place);
        for end in told.ends {
            ends.push(place + (*end - told.from))?;
        }
        Ok(())
    }

    /// Whether a mask of the net accepts a span from a place. Takes no memory.
    pub fn accepts_some(&self, mask: &Mask, place: usize) -> bool
        requires table { HasTable self.now }
        requires mask { Contains (masks_of self.now.net.now) mask.now }
        ensures { IsTrue result ↔ ((k : ℕ) × accepts_in self.now mask.now place k) }
    {
        if self.text.len() <= place {
            return false;
        }
        !self.told(mask, place).ends.is_empty()
    }

    /// The ends of the spans that a mask of the net accepts from a place, as they were found from
    /// another place.
    fn told(&self, mask: &Mask, place: usize) -> Told<'_>
        requires table { HasTable self.now }
        requires mask { Contains (masks_of self.now.net.now) mask.now }
        requires inside { place < length self.now.text.now }
        ensures { TellsEnds (Accepts self.now.alphabet.now self.now.text.now
            self.now.applied.now mask.now) place result.from result.ends.now }
    {
        self.masks.told(
            self.net,
            self.text,
            self.alphabet,
            self.applied,
            mask,
            place,
        )
    }
}
