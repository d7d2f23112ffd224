//! An index of the parts of a net by the tokens at which they may begin.
//!
//! A part whose first state has literal edges alone, and isn't final, begins only at tokens that
//! one of these literals fits. The index lists it with the number of each of them, in the order of
//! these numbers. All other parts are listed apart, to be tried everywhere. It is made once, and
//! takes eight bytes for each pair of a part and a token.

ghost use Rattle.std.specs.Prelude.{◌≡◌, ℕ, ◌+◌, ◌<◌, ◌≤◌, List, [], Some, slice_get, length, Contains, IfNone, IfOk, IfSome, IsTrue, OnOk};
ghost use Rattle.std.specs.List.Sorted.{IsNonDecreasing, IsNonDecreasingBy, IsPermutation};
ghost use Rattle.ux_net.specs.declared.state.Edge.{Edge as TheEdge};
ghost use Rattle.ux_net.specs.declared.state.State.{State as TheState};
ghost use Rattle.ux_net.specs.Nets.{states_of};
ghost use Rattle.ux_parts.specs.declared.part.Part.{Part as ThePart};
ghost use Rattle.ux_tokens.specs.Numbers.{different_texts};
ghost use Rattle.ux_walk.specs.Literals.{AreReady, IsLiteral};
ghost use Rattle.ux_text_chart.specs.PartIndexes.{AreIndexed, AreListed, IsLiteralState, IsNoLater, IsPartIndex, IsTried, begins_at, order_of};
ghost use Rattle.ux_text_chart.specs.declared.part_index.Beginning.{Beginning as TheBeginning};

use crate::net_tables::TokenAt;
use crate::state_indexes::has_index;
use std::alloc::Global;
use ux_alphabet::Alphabet;
use ux_base::{Mem, NoMemory};
use ux_net::{Edge, Label, Net};
use ux_parts::Parts;
use ux_tokens::Text;
use ux_walk::words::Words;

/// As many comparisons of a literal with a token are spent to make the index. They take a second or
/// two in all.
const MOST_COMPARED: usize = 268_435_456;

/// Where as many pairs of a part and a token are listed, no further part is.
const MOST_LISTED: usize = 8_388_608;

/// A part, and a token that a literal of its first state fits.
#[derive(Clone, Copy)]
pub struct Beginning {
    /// The number of the token.
    pub token: u32,
    /// The number of the part.
    pub part: u32,
}

/// The parts, by the tokens at which they may begin.
#[derive(Drop)]
pub struct PartIndex {
    /// Each part of literals with each token at which it may begin, by token and then by part.
    beginnings: Vec<Beginning>,
    /// The numbers of all other parts, ascending.
    everywhere: Vec<u32>,
    /// For each part whether it is tested where it is tried, before it is searched.
    tested: Vec<bool>,
    /// How many parts there are.
    count: usize,
}

impl PartIndex {
    /// The index of the parts. Takes a step a token of the text, the comparisons that `Words::cost`
    /// tells of the literals of first states, and a sorting of what was found. Beyond a bound, parts
    /// are listed apart.
    pub fn of(
        alloc: Global,
        net: &Net,
        parts: &Parts,
        text: &Text,
        alphabet: &Alphabet,
    ) -> Mem<PartIndex>
        ensures { IfOk result (IsPartIndex alphabet.now (different_texts text.now) net.now
            parts.now) }
    {
        let words = Words::of(alloc, text, alphabet)?;
        let mut beginnings = Vec::new(alloc);
        let mut everywhere = Vec::new(alloc);
        add_parts(
            alloc,
            &words,
            alphabet,
            net,
            parts,
            &mut beginnings,
            &mut everywhere,
        )?;
        sort(&mut beginnings);
        let tested = tested_parts(alloc, net, parts, everywhere.as_slice())?;
        let count = parts.list.as_slice().len();
        Ok(PartIndex {
            beginnings,
            everywhere,
            tested,
            count,
        })
    }

    /// The least number, from one on, of a part to be tried at the token, or everywhere. Takes a
    /// look-up in both lists.
    pub fn next(&self, token: TokenAt, from: usize) -> Option<u32>
        requires ordered { IsNonDecreasingBy order_of self.now.beginnings.items }
        requires rises { IsNonDecreasing self.now.everywhere.items }
        ensures from { IfSome result (λ number. from ≤ number) }
        ensures least { (part : ℕ) → from ≤ part → part < 4294967296 →
            IsTried self.now token part → IsNoLater result part }
    {
        let everywhere = self.everywhere.as_slice();
        match token {
            TokenAt::Number(number) => {
                let here = next_at(self.beginnings.as_slice(), number, from);
                least(next_in(everywhere, from), here)
            },
            TokenAt::Unknown => next_of_all(self.count, from),
            TokenAt::End => next_in(everywhere, from),
        }
    }

    /// Whether the part is tested where it is tried, before it is searched: not where the token tells
    /// that it may begin, nor where its first state has an index, since a search looks its edges up.
    pub fn is_tested(&self, part: u32) -> bool {
        match self.tested.get(part as usize) {
            Some(is_tested) => *is_tested,
            None => false,
        }
    }
}

/// For each part whether it is tested where it is tried.
fn tested_parts(alloc: Global, net: &Net, parts: &Parts, everywhere: &[u32]) -> Mem<Vec<bool>> {
    let mut tested = Vec::new(alloc);
    for _part in parts.list.as_slice() {
        tested.push(false)?;
    }
    for number in everywhere {
        if let Some(is_tested) = tested.get_mut(*number as usize) {
            *is_tested = !has_many(net, parts, *number);
        }
    }
    Ok(tested)
}

/// Whether the first state of a part gets an index.
fn has_many(net: &Net, parts: &Parts, number: u32) -> bool {
    let Some(part) = parts.part(number) else {
        return false;
    };
    match net.state(part.graph, part.first) {
        Some(state) => has_index(state.edges.as_slice()),
        None => false,
    }
}

/// Lists each part.
fn add_parts(
    alloc: Global,
    words: &Words,
    alphabet: &Alphabet,
    net: &Net,
    parts: &Parts,
    beginnings: &mut Vec<Beginning>,
    everywhere: &mut Vec<u32>,
) -> Mem<()>
    requires none { everywhere.old.items ≡ [] }
    ensures { (texts : List (List ℕ)) → AreReady alphabet.now texts words.now →
        OnOk result (AreIndexed alphabet.now texts net.now parts.now
        (length parts.now.list) beginnings.new.items everywhere.new.items) }
{
    let mut compared = MOST_COMPARED;
    for place in 0..parts.list.as_slice().len() {
        add_part(
            alloc,
            words,
            alphabet,
            net,
            parts,
            place,
            &mut compared,
            beginnings,
            everywhere,
        )?;
    }
    Ok(())
}

/// Lists the part at a place.
fn add_part(
    alloc: Global,
    words: &Words,
    alphabet: &Alphabet,
    net: &Net,
    parts: &Parts,
    place: usize,
    compared: &mut usize,
    beginnings: &mut Vec<Beginning>,
    everywhere: &mut Vec<u32>,
) -> Mem<()>
    ensures { (texts : List (List ℕ)) → AreReady alphabet.now texts words.now →
        AreIndexed alphabet.now texts net.now parts.now place beginnings.old.items
        everywhere.old.items →
        OnOk result (AreIndexed alphabet.now texts net.now parts.now (place + 1)
        beginnings.new.items everywhere.new.items) }
{
    let Ok(number) = u32::try_from(place) else {
        // More parts than there are numbers don't fit into memory.
        return Err(NoMemory);
    };
    match literals_of(net, parts, number) {
        Some(edges) if is_room(compared, words.cost(edges.len()), beginnings.len()) => {
            add_edges(alloc, words, alphabet, number, edges, beginnings)?;
            return Ok(());
        },
        _ => {
            everywhere.push(number)?;
            return Ok(());
        },
    }
}

/// Whether so many comparisons may still be spent, and so many pairs be listed. If so, they are
/// spent.
fn is_room(compared: &mut usize, cost: usize, listed: usize) -> bool {
    if *compared < cost || MOST_LISTED < listed {
        return false;
    }
    *compared -= cost;
    true
}

/// The edges of the first state of a part, if these are literals alone, and it isn't final.
fn literals_of<'n>(net: &'n Net, parts: &Parts, number: u32) -> Option<&'n [Edge]>
    ensures { IfSome result (λ edges. (part : ThePart) (state : TheState) →
        slice_get parts.now.list number ≡ Some part →
        slice_get (states_of net.now part.graph) part.first ≡ Some state →
        IsLiteralState state × (state.edges ≡ edges.now)) }
{
    let part = parts.part(number)?;
    let state = net.state(part.graph, part.first)?;
    if state.is_final || !are_literals(state.edges.as_slice()) {
        return None;
    }
    Some(state.edges.as_slice())
}

/// Whether all of the edges are literals.
fn are_literals(edges: &[Edge]) -> bool
    ensures { IsTrue result → (edge : TheEdge) → Contains edges.now edge → IsLiteral edge.label }
{
    for edge in edges {
        if !is_literal(&edge.label) {
            return false;
        }
    }
    true
}

/// Whether the label is a literal.
fn is_literal(label: &Label) -> bool
    ensures { IsTrue result → IsLiteral label.now }
{
    matches!(label, Label::CaseFolded(_) | Label::CaseExact(_))
}

/// Lists the part with each token that one of the edges fits.
fn add_edges(
    alloc: Global,
    words: &Words,
    alphabet: &Alphabet,
    part: u32,
    edges: &[Edge],
    beginnings: &mut Vec<Beginning>,
) -> Mem<()>
    ensures kept { OnOk result ((beginning : TheBeginning) →
        Contains beginnings.old.items beginning → Contains beginnings.new.items beginning) }
    ensures listed { (texts : List (List ℕ)) → AreReady alphabet.now texts words.now →
        OnOk result ((edge : TheEdge) → Contains edges.now edge →
        AreListed alphabet.now texts beginnings.new.items part edge) }
{
    for edge in edges {
        add_edge(alloc, words, alphabet, part, edge, beginnings)?;
    }
    Ok(())
}

/// Lists the part with each token that the edge fits.
fn add_edge(
    alloc: Global,
    words: &Words,
    alphabet: &Alphabet,
    part: u32,
    edge: &Edge,
    beginnings: &mut Vec<Beginning>,
) -> Mem<()>
    ensures kept { OnOk result ((beginning : TheBeginning) →
        Contains beginnings.old.items beginning → Contains beginnings.new.items beginning) }
    ensures listed { (texts : List (List ℕ)) → AreReady alphabet.now texts words.now →
        OnOk result (AreListed alphabet.now texts beginnings.new.items part edge.now) }
{
    let tokens = words.numbers(alloc, alphabet, &edge.label)?;
    add_tokens(tokens.as_slice(), part, beginnings)
}

/// Lists the part with each of the tokens.
fn add_tokens(tokens: &[u32], part: u32, beginnings: &mut Vec<Beginning>) -> Mem<()>
    ensures kept { OnOk result ((beginning : TheBeginning) →
        Contains beginnings.old.items beginning → Contains beginnings.new.items beginning) }
    ensures listed { OnOk result ((token : ℕ) → Contains tokens.now token →
        Contains beginnings.new.items (begins_at token part)) }
{
    for token in tokens {
        beginnings.push(Beginning {
            token: *token,
            part,
        })?;
    }
    Ok(())
}

/// Puts them in order.
fn sort(beginnings: &mut Vec<Beginning>)
    ensures same { IsPermutation beginnings.old.items beginnings.new.items }
    ensures ordered { IsNonDecreasingBy order_of beginnings.new.items }
{
    beginnings.sort_unstable_by_key(|beginning| order(beginning));
}

/// Where it stands: by token, and by part where the tokens are equal.
fn order(beginning: &Beginning) -> u64
    ensures { result ≡ order_of beginning.now }
{
    u64::from(beginning.token) * 4_294_967_296 + u64::from(beginning.part)
}

/// The least part, from a number on, that may begin at the token. It is looked up by halving.
fn next_at(beginnings: &[Beginning], token: u32, from: usize) -> Option<u32>
    requires ordered { IsNonDecreasingBy order_of beginnings.now }
    ensures from { IfSome result (λ part. from ≤ part) }
    ensures least { (part : ℕ) → from ≤ part → part < 4294967296 →
        Contains beginnings.now (begins_at token part) → IsNoLater result part }
{
    let Ok(from) = u32::try_from(from) else {
        return None;
    };
    let first = order(&Beginning { token, part: from });
    let place = beginnings.partition_point(|beginning| order(beginning) < first);
    if beginnings.len() <= place {
        return None;
    }
    part_at(beginnings[place], token)
}

/// The part, if it is listed with the token.
fn part_at(beginning: Beginning, token: u32) -> Option<u32>
    ensures small { beginning.part < 4294967296 }
    ensures some { IfSome result (λ part.
        (part ≡ beginning.part) × (beginning.token ≡ token)) }
    ensures none { IfNone result (beginning.token ≡ token → ⊥) }
{
    if beginning.token != token {
        return None;
    }
    Some(beginning.part)
}

/// The least of the ascending numbers, from one on. It is looked up by halving.
fn next_in(numbers: &[u32], from: usize) -> Option<u32>
    requires rises { IsNonDecreasing numbers.now }
    ensures from { IfSome result (λ number. from ≤ number) }
    ensures least { (number : ℕ) → from ≤ number → Contains numbers.now number →
        IsNoLater result number }
{
    let place = numbers.partition_point(|number| (*number as usize) < from);
    if numbers.len() <= place {
        return None;
    }
    Some(numbers[place])
}

/// The number itself, if it is below how many there are and 32 bits tell it.
fn next_of_all(count: usize, from: usize) -> Option<u32>
    ensures from { IfSome result (λ part. from ≤ part) }
    ensures least { (part : ℕ) → from ≤ part → part < 4294967296 → part < count →
        IsNoLater result part }
{
    if count <= from {
        return None;
    }
    u32::try_from(from).ok()
}

/// The lesser number, where there are two.
fn least(one: Option<u32>, other: Option<u32>) -> Option<u32>
    ensures from { (from : ℕ) → IfSome one (λ number. from ≤ number) →
        IfSome other (λ number. from ≤ number) → IfSome result (λ number. from ≤ number) }
    ensures one { (number : ℕ) → IsNoLater one number → IsNoLater result number }
    ensures other { (number : ℕ) → IsNoLater other number → IsNoLater result number }
{
    match (one, other) {
        (Some(one), Some(other)) => Some(one.min(other)),
        (Some(number), None) | (None, Some(number)) => Some(number),
        (None, None) => None,
    }
}
