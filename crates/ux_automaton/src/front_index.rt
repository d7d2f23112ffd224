//! An index of a front's stands by the tokens that their literals fit.
//!
//! A front of many phrases has many stands of one literal edge each, few of which apply at a token.
//! The index lists each stand with the number of each token that a literal of it fits, in the order
//! of these numbers, and the stands apart that have another edge.

ghost use Rattle.std.specs.Prelude.{◌≡◌, ◌↔◌, ◌⊎◌, [], ℕ, List, Contains, IfOk, IsTrue, OnOk, Some, drop, map, slice_get, take};
ghost use Rattle.std.specs.List.Sorted.{IsNonDecreasingBy, IsPermutation};
ghost use Rattle.ux_closure.specs.declared.stand.Stand.{Stand as TheStand};
ghost use Rattle.ux_net.specs.declared.state.Edge.{Edge as TheEdge};
ghost use Rattle.ux_tokens.specs.Numbers.{different_texts};
ghost use Rattle.ux_walk.specs.Literals.{AreReady, IsFitted, IsLiteral};
ghost use Rattle.ux_automaton.specs.declared.front_index.Fitting.{Fitting as TheFitting};
ghost use Rattle.ux_mask_table.specs.declared.masked_text.MaskedText.{MaskedText as TheMaskedText};
ghost use Rattle.ux_automaton.specs.FrontIndexes.{AreLikely, FitsOver, HasOther, IsFrontIndex, number_of, stand_of};
ghost use Rattle.ux_automaton.specs.Fronts.{HasStand, Store};

use std::alloc::Global;
use ux_base::Mem;
use ux_closure::stand::Stand;
use ux_mask_table::MaskedText;
use ux_net::{Edge, Label, Net};
use ux_walk::words::Words;

/// A stand, and a token that a literal edge of it fits.
#[derive(Clone, Copy)]
pub struct Fitting {
    /// The number of the token.
    pub number: u32,
    /// The stand.
    pub stand: Stand,
}

/// The stands of a front, by the tokens that their literals fit.
#[derive(Drop)]
pub struct FrontIndex {
    /// Each with each token that a literal of it fits, in the order of the tokens' numbers.
    fittings: Vec<Fitting>,
    /// Those that have an edge that is no literal.
    others: Vec<Stand>,
}

impl FrontIndex {
    /// The index of these stands. Takes the comparisons that `Words::cost` tells of so many labels,
    /// and a sorting of what was found.
    pub fn of(
        alloc: Global,
        words: &Words,
        masked: &MaskedText,
        stands: &[Stand],
    ) -> Mem<FrontIndex>
        requires { AreReady masked.now.alphabet.now (different_texts masked.now.text.now) words.now }
        ensures { IfOk result (IsFrontIndex masked.now (Contains stands.now)) }
    {
        let mut fittings = fittings_of(alloc, words, masked, stands)?;
        let others = others_of(alloc, masked.net, stands)?;
        sort(&mut fittings);
        Ok(FrontIndex { fittings, others })
    }

    /// The stands that may lead on over the token of this number. Takes a look-up, and a step for
    /// each of them.
    pub fn likely(&self, alloc: Global, number: u32) -> Mem<Vec<Stand>>
        ensures { (masked : TheMaskedText) (text : List ℕ) (store : Store) (front : ℕ) →
            IsFrontIndex masked (HasStand store front) self.now →
            slice_get (different_texts masked.text.now) number ≡ Some text →
            IfOk result (λ few. AreLikely masked text (HasStand store front) few.items) }
    {
        let mut few = stands_of(alloc, run(self.fittings.as_slice(), number))?;
        few.extend_from_slice(self.others.as_slice())?;
        Ok(few)
    }

    /// Whether it is known that none of the stands leads on over the token of this number. Takes a
    /// look-up.
    pub fn has_none(&self, number: u32) -> bool
        ensures { (masked : TheMaskedText) (text : List ℕ) (store : Store) (front : ℕ) →
            IsFrontIndex masked (HasStand store front) self.now →
            slice_get (different_texts masked.text.now) number ≡ Some text →
            IsTrue result → AreLikely masked text (HasStand store front) [] }
    {
        are_none(
            self.others.as_slice(),
            run(self.fittings.as_slice(), number),
        )
    }

    /// How many pairs of a stand and a token it keeps, and other stands, and one for itself.
    pub fn size(&self) -> usize {
        let kept = self.fittings.len().saturating_add(self.others.len());
        kept.saturating_add(1)
    }
}

/// Each stand with each token that a literal of it fits.
fn fittings_of(
    alloc: Global,
    words: &Words,
    masked: &MaskedText,
    stands: &[Stand],
) -> Mem<Vec<Fitting>>
    requires { AreReady masked.now.alphabet.now (different_texts masked.now.text.now) words.now }
    ensures { IfOk result (λ fittings. (fitting : TheFitting) → Contains fittings.items fitting
        ↔ ((stand : TheStand) × Contains stands.now stand × FitsOver masked.now stand fitting)) }
{
    let mut fittings = Vec::new(alloc);
    for stand in stands {
        add_stand(alloc, words, masked, *stand, &mut fittings)?;
    }
    Ok(fittings)
}

/// Adds a stand with each token that a literal of it fits.
fn add_stand(
    alloc: Global,
    words: &Words,
    masked: &MaskedText,
    stand: Stand,
    fittings: &mut Vec<Fitting>,
) -> Mem<()>
    requires { AreReady masked.now.alphabet.now (different_texts masked.now.text.now) words.now }
    ensures { OnOk result ((fitting : TheFitting) → Contains fittings.new.items fitting
        ↔ (Contains fittings.old.items fitting ⊎ FitsOver masked.now stand fitting)) }
{
    match masked.net.state(stand.here.graph, stand.here.state) {
        Some(state) => add_edges(
            alloc,
            words,
            masked,
            stand,
            state.edges.as_slice(),
            fittings,
        ),
        None => Ok(()),
    }
}

/// Adds a stand with each token that one of these edges fits.
fn add_edges(
    alloc: Global,
    words: &Words,
    masked: &MaskedText,
    stand: Stand,
    edges: &[Edge],
    fittings: &mut Vec<Fitting>,
) -> Mem<()>
    requires { AreReady masked.now.alphabet.now (different_texts masked.now.text.now) words.now }
    ensures { OnOk result ((fitting : TheFitting) → Contains fittings.new.items fitting
        ↔ (Contains fittings.old.items fitting ⊎ ((edge : TheEdge) × Contains edges.now edge
        × (IsFitted masked.now.alphabet.now (different_texts masked.now.text.now) edge.label
        fitting.number × (fitting.stand ≡ stand))))) }
{
    for edge in edges {
        add_edge(alloc, words, masked, stand, &edge.label, fittings)?;
    }
    Ok(())
}

/// Adds a stand with each token that a label fits, if it is a literal.
fn add_edge(
    alloc: Global,
    words: &Words,
    masked: &MaskedText,
    stand: Stand,
    label: &Label,
    fittings: &mut Vec<Fitting>,
) -> Mem<()>
    requires { AreReady masked.now.alphabet.now (different_texts masked.now.text.now) words.now }
    ensures { OnOk result ((fitting : TheFitting) → Contains fittings.new.items fitting
        ↔ (Contains fittings.old.items fitting
        ⊎ (IsFitted masked.now.alphabet.now (different_texts masked.now.text.now) label.now
        fitting.number × (fitting.stand ≡ stand)))) }
{
    let numbers = words.numbers(alloc, masked.alphabet, label)?;
    for number in &numbers {
        fittings.push(Fitting {
            number: *number,
            stand,
        })?;
    }
    Ok(())
}

/// The stands that have an edge that is no literal.
fn others_of(alloc: Global, net: &Net, stands: &[Stand]) -> Mem<Vec<Stand>>
    ensures { IfOk result (λ others. (other : TheStand) → Contains others.items other
        ↔ ((stand : TheStand) × Contains stands.now stand
        × ((other ≡ stand) × HasOther net.now stand))) }
{
    let mut others = Vec::new(alloc);
    for stand in stands {
        put_other(net, *stand, &mut others)?;
    }
    Ok(others)
}

/// Adds a stand, if it has an edge that is no literal.
fn put_other(net: &Net, stand: Stand, others: &mut Vec<Stand>) -> Mem<()>
    ensures { OnOk result ((other : TheStand) → Contains others.new.items other
        ↔ (Contains others.old.items other ⊎ ((other ≡ stand) × HasOther net.now stand))) }
{
    if has_other(net, stand) {
        others.push(stand)?;
    }
    Ok(())
}

/// Whether a stand has an edge that is no literal.
fn has_other(net: &Net, stand: Stand) -> bool
    ensures { IsTrue result ↔ HasOther net.now stand }
{
    match net.state(stand.here.graph, stand.here.state) {
        Some(state) => is_other_among(state.edges.as_slice()),
        None => false,
    }
}

/// Whether one of the edges is no literal.
fn is_other_among(edges: &[Edge]) -> bool
    ensures { IsTrue result
        ↔ ((edge : TheEdge) × Contains edges.now edge × (IsLiteral edge.label → ⊥)) }
{
    for edge in edges {
        if !is_literal(&edge.label) {
            return true;
        }
    }
    false
}

/// Whether the label is a literal.
fn is_literal(label: &Label) -> bool
    ensures { IsTrue result ↔ IsLiteral label.now }
{
    matches!(label, Label::CaseFolded(_) | Label::CaseExact(_))
}

/// Puts them in the order of the tokens' numbers.
fn sort(fittings: &mut Vec<Fitting>)
    ensures same { IsPermutation fittings.old.items fittings.new.items }
    ensures ordered { IsNonDecreasingBy number_of fittings.new.items }
{
    fittings.sort_unstable_by_key(|fitting| fitting.number);
}

/// Those of the token of this number.
fn run(fittings: &[Fitting], number: u32) -> &[Fitting]
    ensures among { (fitting : TheFitting) → Contains result.now fitting →
        Contains fittings.now fitting }
    ensures all { IsNonDecreasingBy number_of fittings.now → (fitting : TheFitting) →
        fitting.number ≡ number → Contains fittings.now fitting → Contains result.now fitting }
{
    let start = fittings.partition_point(|fitting| fitting.number < number);
    let rest = behind(fittings, start);
    let count = rest.partition_point(|fitting| fitting.number <= number);
    front(rest, count)
}

/// Whether there is neither another stand nor a fitting.
fn are_none(others: &[Stand], fittings: &[Fitting]) -> bool
    ensures others { IsTrue result → others.now ≡ [] }
    ensures fittings { IsTrue result → fittings.now ≡ [] }
{
    others.is_empty() && fittings.is_empty()
}

/// What stands from a place on.
fn behind(fittings: &[Fitting], start: usize) -> &[Fitting]
    ensures { result.now ≡ drop start fittings.now }
{
    if start > fittings.len() {
        return &[];
    }
    &fittings[start..]
}

/// The first few.
fn front(fittings: &[Fitting], count: usize) -> &[Fitting]
    ensures { result.now ≡ take count fittings.now }
{
    if count > fittings.len() {
        return fittings;
    }
    &fittings[..count]
}

/// The stands.
fn stands_of(alloc: Global, fittings: &[Fitting]) -> Mem<Vec<Stand>>
    ensures { IfOk result (λ stands. stands.items ≡ map stand_of fittings.now) }
{
    Ok(fittings.iter().map(stand).collect(alloc)?)
}

/// The stand.
fn stand(fitting: &Fitting) -> Stand
    ensures { result ≡ stand_of fitting.now }
{
    fitting.stand
}
