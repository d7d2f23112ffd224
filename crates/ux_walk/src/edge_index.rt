//! An index of a state's edges by the tokens that its literals fit.
//!
//! A state of thousands of literal edges has few that may apply at a token. The index lists each
//! literal edge with the number of each token that it fits, in the order of these numbers, and the
//! other edges apart. It is made once, and takes eight bytes for each pair of an edge and a token
//! that it fits. So it doesn't grow by the tokens that walks meet.

ghost use Rattle.std.specs.Prelude.{◌≡◌, ◌<◌, ℕ, List, Contains, IfOk, IfSome, OnOk, Some, drop, length, map, slice_get, take};
ghost use Rattle.std.specs.List.Sorted.{IsNonDecreasingBy, IsPermutation};
ghost use Rattle.ux_alphabet.specs.Letters.{Letters};
ghost use Rattle.ux_net.specs.declared.state.Edge.{Edge};
ghost use Rattle.ux_walk.specs.LookUps.{AreEnough};
ghost use Rattle.ux_walk.specs.EdgeIndexes.{IsIndexOf, fits_at, number_of, place_of};
ghost use Rattle.ux_walk.specs.Literals.{AreReady, IsFitted};
ghost use Rattle.ux_walk.specs.Noting.{Includes};

use crate::literals::is_literal;
use crate::words::Words;
use std::alloc::Global;
use ux_alphabet::Alphabet;
use ux_base::Mem;
use ux_net::{Edge, Label};

/// A literal edge, and a token that it fits.
#[derive(Clone, Copy)]
pub struct Fitting {
    /// The number of the token.
    pub number: u32,
    /// The place of the edge.
    pub place: u32,
}

/// The places of the edges of a state, by the tokens that they fit.
#[derive(Drop)]
pub struct EdgeIndex {
    /// Each literal edge with each token that it fits, in the order of the tokens' numbers.
    fittings: Vec<Fitting>,
    /// The places of all other edges.
    others: Vec<u32>,
}

impl EdgeIndex {
    /// The index of these edges, unless it would have more than so many pairs of a literal and a
    /// token. Takes the comparisons that `Words::cost` tells of so many labels, and a sorting of
    /// what was found.
    pub fn of(
        alloc: Global,
        words: &Words,
        alphabet: &Alphabet,
        edges: &[Edge],
        most: usize,
    ) -> Mem<Option<EdgeIndex>>
        requires few { length edges.now < 4294967296 }
        ensures { (texts : List (List ℕ)) → AreReady alphabet.now texts words.now →
            IfOk result (λ index. IfSome index (IsIndexOf alphabet.now texts edges.now)) }
    {
        let mut fittings = Vec::new(alloc);
        let mut others = Vec::new(alloc);
        for place in 0..edges.len() {
            let label = &edges[place].label;
            if !is_literal(label) {
                others.push(place as u32)?;
                continue;
            }
            add_fittings(alloc, words, alphabet, label, place as u32, &mut fittings)?;
            if most < fittings.len() {
                return Ok(None);
            }
        }
        sort(&mut fittings);
        Ok(Some(EdgeIndex { fittings, others }))
    }

    /// The places of the edges that may apply at the token of this number. Takes a look-up, and a
    /// step for each place.
    pub fn places(&self, alloc: Global, number: u32) -> Mem<Vec<u32>>
        ensures { (alphabet : Letters) (texts : List (List ℕ)) (edges : List Edge)
            (text : List ℕ) → IsIndexOf alphabet texts edges self.now →
            slice_get texts number ≡ Some text →
            IfOk result (λ places. AreEnough alphabet text edges places.items) }
    {
        let mut places = places_of(alloc, run(self.fittings.as_slice(), number))?;
        places.extend_from_slice(self.others.as_slice())?;
        Ok(places)
    }

    /// How many pairs of an edge and a token it keeps, and other edges.
    pub fn size(&self) -> usize {
        self.fittings.len().saturating_add(self.others.len())
    }
}

/// Adds the edge at a place, with each token that its label fits.
fn add_fittings(
    alloc: Global,
    words: &Words,
    alphabet: &Alphabet,
    label: &Label,
    place: u32,
    fittings: &mut Vec<Fitting>,
) -> Mem<()>
    ensures { (texts : List (List ℕ)) → AreReady alphabet.now texts words.now →
        OnOk result (Includes (λ fitting. (number : ℕ) × IsFitted alphabet.now texts
        label.now number
        × (fitting ≡ fits_at number place)) fittings.old.items fittings.new.items) }
{
    let numbers = words.numbers(alloc, alphabet, label)?;
    for number in &numbers {
        fittings.push(Fitting {
            number: *number,
            place,
        })?;
    }
    Ok(())
}

/// Puts them in the order of the tokens' numbers.
fn sort(fittings: &mut Vec<Fitting>)
    ensures same { IsPermutation fittings.old.items fittings.new.items }
    ensures ordered { IsNonDecreasingBy number_of fittings.new.items }
{
    fittings.sort_unstable_by_key(|fitting| fitting.number);
}

/// Those of the token of this number.
fn run(fittings: &[Fitting], number: u32) -> &[Fitting]
    ensures { IsNonDecreasingBy number_of fittings.now → (place : ℕ) →
        Contains fittings.now (fits_at number place) →
        Contains result.now (fits_at number place) }
{
    let start = fittings.partition_point(|fitting| fitting.number < number);
    let rest = behind(fittings, start);
    let count = rest.partition_point(|fitting| fitting.number <= number);
    front(rest, count)
}

/// What stands from a place on.
fn behind(fittings: &[Fitting], start: usize) -> &[Fitting]
    ensures { result.now ≡ drop start fittings.now }
{
    if start > fittings.len() {
        return &[];
    }
    &fittings[start..]
}

/// The first few.
fn front(fittings: &[Fitting], count: usize) -> &[Fitting]
    ensures { result.now ≡ take count fittings.now }
{
    if count > fittings.len() {
        return fittings;
    }
    &fittings[..count]
}

/// The places of the edges.
fn places_of(alloc: Global, fittings: &[Fitting]) -> Mem<Vec<u32>>
    ensures { IfOk result (λ places. places.items ≡ map place_of fittings.now) }
{
    Ok(fittings.iter().map(place).collect(alloc)?)
}

/// The place of the edge.
fn place(fitting: &Fitting) -> u32
    ensures { result ≡ place_of fitting.now }
{
    fitting.place
}
