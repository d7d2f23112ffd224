//! The indexes of fronts of many stands, as walks meet them.
//!
//! Each is made once, when walks first go on from its front. What they take in all is bounded:
//! beyond that, all stands are tried. They are let go with the fronts. The list of the different
//! tokens stays.

ghost use Rattle.std.specs.Prelude.{◌≡◌, ◌↔◌, ◌⊎◌, [], ℕ, true, List, Contains, IfOk, IfSome, IsTrue, OnOk, Some, slice_get};
ghost use Rattle.ux_closure.specs.declared.stand.Stand.{Stand as TheStand};
ghost use Rattle.ux_tokens.specs.Numbers.{different_texts};
ghost use Rattle.ux_mask_table.specs.declared.masked_text.MaskedText.{MaskedText as TheMaskedText};
ghost use Rattle.ux_automaton.specs.FrontIndexes.{AreFrontsIndexed, AreLikely, IsFrontIndex};
ghost use Rattle.ux_automaton.specs.Fronts.{HasStand, IsFrontIn, Store};
ghost use Rattle.ux_automaton.specs.Kept.{IsSound, store_of};

use crate::front_index::FrontIndex;
use crate::fronts::Fronts;
use indexmap::IndexMap;
use std::alloc::Global;
use std::hash::Hash;
use ux_base::Mem;
use ux_closure::stand::Stand;
use ux_mask_table::MaskedText;
use ux_net::Net;
use ux_walk::words::Words;

/// As many stands are tried one by one: no index of them is made before one of more was.
const FEW: usize = 8;

/// As many comparisons of a literal with a token are spent to make the index of few stands.
const FEW_COMPARED: usize = 1024;

/// As many comparisons of a literal with a token are spent to make indexes.
const MOST_COMPARED: usize = 67_108_864;

/// As many pairs of a stand and a token are kept in all, of some thirty bytes each.
const MOST_KEPT: usize = 2_097_152;

/// The indexes of fronts of many stands that were met.
#[derive(Drop)]
pub struct FrontIndexes<'t> {
    /// The different tokens of the text, once a front of many stands was met.
    words: Option<Words<'t>>,
    /// The indexes, by the numbers of the fronts.
    indexes: IndexMap<usize, FrontIndex>,
    /// How many comparisons may still be spent.
    compared: usize,
    /// How many pairs may still be kept.
    kept: usize,
}

impl<'t> FrontIndexes<'t> {
    /// No index yet. Takes no memory.
    pub fn new(alloc: Global) -> FrontIndexes<'t>
        ensures { (masked : TheMaskedText) (store : Store) → AreFrontsIndexed masked store result }
    {
        FrontIndexes {
            words: None,
            indexes: IndexMap::new(alloc),
            compared: MOST_COMPARED,
            kept: MOST_KEPT,
        }
    }

    /// Lets all indexes go, so that there may be other fronts.
    pub fn let_go(&mut self, alloc: Global)
        ensures { (masked : TheMaskedText) (old new : Store) →
            AreFrontsIndexed masked old self.old → AreFrontsIndexed masked new self.new }
    {
        self.indexes = IndexMap::new(alloc);
        self.compared = MOST_COMPARED;
        self.kept = MOST_KEPT;
    }

    /// Whether it is known that no stand of the front leads on over the token of this number.
    pub fn has_none(&self, front: usize, number: u32) -> bool
        ensures { (masked : TheMaskedText) (store : Store) (text : List ℕ) →
            AreFrontsIndexed masked store self.now →
            slice_get (different_texts masked.text.now) number ≡ Some text →
            IsTrue result → AreLikely masked text (HasStand store front) [] }
    {
        match at(&self.indexes, front) {
            Some(index) => index.has_none(number),
            None => false,
        }
    }

    /// Those of a front's stands that may lead on over the token of this number. Where the front has
    /// no index yet, they are all, and its index is made if that is worth its cost.
    pub fn likely(
        &mut self,
        alloc: Global,
        masked: &MaskedText<'t>,
        fronts: &Fronts,
        front: usize,
        number: u32,
    ) -> Mem<Vec<Stand>>
        requires indexed { AreFrontsIndexed masked.now (store_of fronts.now) self.now }
        requires sound { IsSound (store_of fronts.now) }
        requires there { IsFrontIn (store_of fronts.now) front }
        ensures indexed { AreFrontsIndexed masked.now (store_of fronts.now) self.new }
        ensures likely { (text : List ℕ) →
            slice_get (different_texts masked.now.text.now) number ≡ Some text →
            IfOk result (λ few.
            AreLikely masked.now text (HasStand (store_of fronts.now) front) few.items) }
    {
        if let Some(index) = at(&self.indexes, front) {
            return index.likely(alloc, number);
        }
        let stands = fronts.stands(alloc, front)?;
        self.meet(alloc, masked, fronts, front, stands.as_slice())?;
        Ok(stands)
    }

    /// Whether an index of these stands is worth its cost. For few stands of few edges it is where the
    /// list of the different tokens is there, and few of these may be capitalised forms of others.
    fn is_worth(&self, net: &Net, stands: &[Stand]) -> bool {
        FEW < stands.len() || self.is_cheap(edges_in(net, stands))
    }

    /// Whether so many edges are few, and compared with few tokens.
    fn is_cheap(&self, edges: usize) -> bool {
        match &self.words {
            Some(words) => edges <= FEW && words.cost(edges) <= FEW_COMPARED,
            None => false,
        }
    }

    /// Makes the index of a front, which has these stands, where it is worth its cost and the bounds
    /// allow it. The first time it takes a step a token of the text.
    fn meet(
        &mut self,
        alloc: Global,
        masked: &MaskedText<'t>,
        fronts: &Fronts,
        front: usize,
        stands: &[Stand],
    ) -> Mem<()>
        requires indexed { AreFrontsIndexed masked.now (store_of fronts.now) self.now }
        requires there { IsFrontIn (store_of fronts.now) front }
        requires stands { (stand : TheStand) →
            Contains stands.now stand ↔ HasStand (store_of fronts.now) front stand }
        ensures { AreFrontsIndexed masked.now (store_of fronts.now) self.new }
    {
        if self.kept == 0 || !self.is_worth(masked.net, stands) {
            return Ok(());
        }
        self.know_words(alloc, masked, fronts)?;
        self.add_index(alloc, masked, fronts, front, stands)
    }

    /// Makes the list of the different tokens, where it is missing.
    fn know_words(&mut self, alloc: Global, masked: &MaskedText<'t>, fronts: &Fronts) -> Mem<()>
        requires { AreFrontsIndexed masked.now (store_of fronts.now) self.now }
        ensures { AreFrontsIndexed masked.now (store_of fronts.now) self.new }
    {
        if self.words.is_some() {
            return Ok(());
        }
        let words = Words::of(alloc, masked.text, masked.alphabet)?;
        self.words = Some(words);
        Ok(())
    }

    /// Makes the index of a front, which has these stands, where the bounds allow it.
    fn add_index(
        &mut self,
        alloc: Global,
        masked: &MaskedText,
        fronts: &Fronts,
        front: usize,
        stands: &[Stand],
    ) -> Mem<()>
        requires indexed { AreFrontsIndexed masked.now (store_of fronts.now) self.now }
        requires there { IsFrontIn (store_of fronts.now) front }
        requires stands { (stand : TheStand) →
            Contains stands.now stand ↔ HasStand (store_of fronts.now) front stand }
        ensures { AreFrontsIndexed masked.now (store_of fronts.now) self.new }
    {
        let Some(words) = &self.words else {
            return Ok(());
        };
        let cost = words.cost(edges_in(masked.net, stands));
        if self.compared < cost {
            return Ok(());
        }
        let index = FrontIndex::of(alloc, words, masked, stands)?;
        self.compared -= cost;
        self.kept = self.kept.saturating_sub(index.size());
        put_at(&mut self.indexes, front, index)
    }
}

/// How many edges the stands have.
fn edges_in(net: &Net, stands: &[Stand]) -> usize {
    let mut count: usize = 0;
    for stand in stands {
        if let Some(state) = net.state(stand.here.graph, stand.here.state) {
            count = count.saturating_add(state.edges.as_slice().len());
        }
    }
    count
}

/// The value at a key.
fn at<K: Eq + Hash + Copy, V>(map: &IndexMap<K, V>, key: K) -> Option<&V>
    requires { (a b : K) → K.eq a b ≡ true → a ≡ b }
    ensures { IfSome result (λ value. Contains map.now.entries (key, value.now)) }
{
    map.get(&key)
}

/// Puts a value at a key.
fn put_at<K: Eq + Hash + Drop, V: Drop>(map: &mut IndexMap<K, V>, key: K, value: V) -> Mem<()>
    requires { (a b : K) → K.eq a b ≡ true → a ≡ b }
    ensures { (k : K) (v : V) → Contains map.new.entries (k, v) →
        Contains map.old.entries (k, v) ⊎ ((k ≡ key) × (v ≡ value)) }
{
    map.insert(key, value)?;
    Ok(())
}
