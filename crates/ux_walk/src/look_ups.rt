//! What walks of one net over one text keep: the indexes of states of many edges, as they
//! meet them, and the texts of events.
//!
//! Each index is made once, when its state is first met, and is kept across the walks of one net over
//! one text with one alphabet. What they take in all is bounded: beyond that, edges are tried one by
//! one.

ghost use Rattle.std.specs.Prelude.{◌≡◌, ◌⊎◌, ◌<◌, ℕ, true, List, Contains, IfOk, IfSome, OnOk, Some, length, slice_get};
ghost use Rattle.ux_alphabet.specs.Letters.{Letters};
ghost use Rattle.ux_net.specs.declared.net_graph.NetGraph.{NetGraph};
ghost use Rattle.ux_net.specs.declared.state.State.{State};
ghost use Rattle.ux_net.specs.Nets.{states_of};
ghost use Rattle.ux_tokens.specs.Numbers.{different_texts};
ghost use Rattle.ux_walk.specs.EdgeIndexes.{IsIndexOf};
ghost use Rattle.ux_walk.specs.LookUps.{AreSound, IsKept};

use crate::config::Frame;
use crate::edge_index::EdgeIndex;
use crate::texts::Texts;
use crate::words::Words;
use indexmap::IndexMap;
use std::alloc::Global;
use std::hash::Hash;
use std::mem;
use ux_alphabet::Alphabet;
use ux_base::Mem;
use ux_net::Edge;
use ux_tokens::Text;

/// As many comparisons of a literal with a token are spent to make indexes. They take a second or
/// two in all.
const MOST_COMPARED: usize = 268_435_456;

/// As many pairs of an edge and a token are kept in all, of eight bytes each.
const MOST_KEPT: usize = 8_388_608;

/// The indexes of states of many edges that were met, and the texts of events.
#[derive(Drop)]
pub struct LookUps<'t> {
    /// The different tokens of the text, once a state of many edges was met.
    words: Option<Words<'t>>,
    indexes: IndexMap<Frame, EdgeIndex>,
    /// The names of variables and the texts of outputs that walks met, each once.
    texts: Texts<'t>,
    /// How many comparisons may still be spent.
    compared: usize,
    /// How many pairs may still be kept.
    kept: usize,
}

impl<'t> LookUps<'t> {
    /// No index yet. Takes no memory.
    pub fn new(alloc: Global) -> LookUps<'t>
        ensures { (alphabet : Letters) (net : List NetGraph) (texts : List (List ℕ)) →
            AreSound alphabet net texts result }
    {
        LookUps {
            words: None,
            indexes: IndexMap::new(alloc),
            texts: Texts::new(alloc),
            compared: MOST_COMPARED,
            kept: MOST_KEPT,
        }
    }

    /// The index of a state, where it is kept.
    pub fn index(&self, state: Frame) -> Option<&EdgeIndex>
        ensures { IfSome result (λ index. IsKept self.now state index.now) }
    {
        at(&self.indexes, state)
    }

    /// Makes the index of a state with these edges, unless it is kept or the bounds are reached.
    /// The first time it takes a step a token of the text.
    pub fn meet(
        &mut self,
        alloc: Global,
        text: &'t Text,
        alphabet: &Alphabet,
        state: Frame,
        edges: &[Edge],
    ) -> Mem<()>
        requires few { length edges.now < 4294967296 }
        ensures { (net : List NetGraph) (there : State) →
            slice_get (states_of net state.graph) state.state ≡ Some there →
            there.edges ≡ edges.now →
            AreSound alphabet.now net (different_texts text.now) self.old →
            AreSound alphabet.now net (different_texts text.now) self.new }
    {
        if self.kept == 0 || self.index(state).is_some() {
            return Ok(());
        }
        self.know_words(alloc, text, alphabet)?;
        self.add_index(alloc, alphabet, state, edges)
    }

    /// The texts of events, given up until they are kept again. Takes no memory.
    pub(crate) fn take_texts(&mut self, alloc: Global) -> Texts<'t>
        ensures { (alphabet : Letters) (net : List NetGraph) (texts : List (List ℕ)) →
            AreSound alphabet net texts self.old → AreSound alphabet net texts self.new }
    {
        mem::replace(&mut self.texts, Texts::new(alloc))
    }

    /// Keeps the texts of events.
    pub(crate) fn keep_texts(&mut self, texts: Texts<'t>)
        ensures { (alphabet : Letters) (net : List NetGraph) (texts : List (List ℕ)) →
            AreSound alphabet net texts self.old → AreSound alphabet net texts self.new }
    {
        self.texts = texts;
    }

    /// Makes the list of the different tokens, where it is missing.
    fn know_words(&mut self, alloc: Global, text: &'t Text, alphabet: &Alphabet) -> Mem<()>
        ensures { (net : List NetGraph) →
            AreSound alphabet.now net (different_texts text.now) self.old →
            AreSound alphabet.now net (different_texts text.now) self.new }
    {
        if self.words.is_some() {
            return Ok(());
        }
        let words = Words::of(alloc, text, alphabet)?;
        self.words = Some(words);
        Ok(())
    }

    /// Makes the index of a state with these edges, where the bounds allow it.
    fn add_index(
        &mut self,
        alloc: Global,
        alphabet: &Alphabet,
        state: Frame,
        edges: &[Edge],
    ) -> Mem<()>
        requires few { length edges.now < 4294967296 }
        ensures { (net : List NetGraph) (there : State) (texts : List (List ℕ)) →
            slice_get (states_of net state.graph) state.state ≡ Some there →
            there.edges ≡ edges.now → AreSound alphabet.now net texts self.old →
            AreSound alphabet.now net texts self.new }
    {
        let Some(words) = &self.words else {
            return Ok(());
        };
        let cost = words.cost(edges.len());
        if self.compared < cost {
            return Ok(());
        }
        let index = EdgeIndex::of(alloc, words, alphabet, edges, self.kept)?;
        self.compared -= cost;
        self.keep(state, index)
    }

    /// Keeps the index of a state. Where none could be made for want of room, no further one is
    /// made.
    fn keep(&mut self, state: Frame, index: Option<EdgeIndex>) -> Mem<()>
        ensures { (net : List NetGraph) (there : State) (alphabet : Letters)
            (texts : List (List ℕ)) →
            slice_get (states_of net state.graph) state.state ≡ Some there →
            IfSome index (IsIndexOf alphabet texts there.edges) →
            AreSound alphabet net texts self.old → AreSound alphabet net texts self.new }
    {
        let Some(index) = index else {
            self.kept = 0;
            return Ok(());
        };
        self.kept = self.kept.saturating_sub(index.size());
        put_at(&mut self.indexes, state, index)
    }
}

/// The value at a key.
fn at<K: Eq + Hash + Copy, V>(map: &IndexMap<K, V>, key: K) -> Option<&V>
    requires { (a b : K) → K.eq a b ≡ true → a ≡ b }
    ensures { IfSome result (λ value. Contains map.now.entries (key, value.now)) }
{
    map.get(&key)
}

/// Puts a value at a key.
fn put_at<K: Eq + Hash + Drop, V: Drop>(map: &mut IndexMap<K, V>, key: K, value: V) -> Mem<()>
    requires { (a b : K) → K.eq a b ≡ true → a ≡ b }
    ensures put { OnOk result (Contains map.new.entries (key, value)) }
    ensures only { (k : K) (v : V) → Contains map.new.entries (k, v) →
        Contains map.old.entries (k, v) ⊎ ((k ≡ key) × (v ≡ value)) }
{
    map.insert(key, value)?;
    Ok(())
}
