//! How many letters the entries of an image have.
//!
//! There may be more forms than could ever be listed, so they are counted from each state on, from
//! the lowest up, and a sum that 64 bits don't hold stays at their greatest number.

ghost use Rattle.std.specs.Prelude.{◌≡◌, ◌+◌, ◌<◌, All, IfOk, length, min};
ghost use Rattle.ux_dawg.specs.Paths.{AreStates, MakeAutomaton};
ghost use Rattle.ux_dawg.specs.declared.state.Edge.{Edge as EdgeRecord};
ghost use Rattle.ux_image_lists.specs.Sizes.{forms_of, letters_told, MOST};
ghost use Rattle.ux_image_lists.specs.Summing.{ending_codes, AreSums, IsSumOf};

use crate::image::Image;
use indexmap::IndexSet;
use std::alloc::Global;
use ux_base::Mem;
use ux_dawg::{Edge, States};
use ux_image::CodeList;

/// What the forms that begin in a state come to.
#[derive(Clone, Copy)]
pub struct Sums {
    /// How many codes they have together.
    pub codes: u64,
    /// How many letters they have, each form counted for each of its codes.
    pub letters: u64,
}

/// How many letters the forms of an image have together, each form counted for each of its codes,
/// as far as 64 bits hold it. The time is linear in the edges.
pub fn count_letters(alloc: Global, image: &Image) -> Mem<u64>
    requires { MakeAutomaton image.now.states }
    ensures { IfOk result (λ letters.
        letters ≡ min (letters_told image.now.lists.keys (forms_of image.now.states)) MOST) }
{
    let sums = sums_of(alloc, &image.states, &image.lists)?;
    Ok(sums[image.states.len() - 1].letters)
}

/// What the forms that begin in each state come to.
fn sums_of(alloc: Global, states: &States, lists: &IndexSet<CodeList>) -> Mem<Vec<Sums>>
    requires { AreStates states.now }
    ensures { IfOk result (λ sums. AreSums states.now lists.now.keys (length states.now) sums.items) }
{
    let mut sums = Vec::new(alloc);
    for number in 0..states.len() {
        let own = codes_in(states.code(number), lists);
        let sum = with_edges(own, states.edges(number), sums.as_slice());
        sums.push(sum)?;
    }
    Ok(sums)
}

/// How many codes a form has that ends in a state with this list.
fn codes_in(number: Option<u32>, lists: &IndexSet<CodeList>) -> u64
    ensures { result ≡ ending_codes lists.now.keys number }
{
    match number {
        Some(number) => match lists.get_index(number as usize) {
            Some(list) => list.codes.as_slice().len() as u64,
            None => 0,
        },
        None => 0,
    }
}

/// What the forms come to that end in a state, with so many codes, or go on by an edge.
fn with_edges(own: u64, edges: &[Edge], sums: &[Sums]) -> Sums
    requires { All (λ (e : EdgeRecord). e.target < length sums.now) edges.now }
    ensures { IsSumOf own edges.now sums.now result }
{
    let mut sum = Sums {
        codes: own,
        letters: 0,
    };
    for edge in edges {
        sum = with_edge(sum, sums[edge.target as usize]);
    }
    sum
}

/// With the forms of one more edge, each of which has one letter more than behind it.
fn with_edge(sum: Sums, behind: Sums) -> Sums
    ensures codes { result.codes ≡ min (sum.codes + behind.codes) MOST }
    ensures letters { result.letters ≡ min (sum.letters + (behind.letters + behind.codes)) MOST }
{
    Sums {
        codes: sum.codes.saturating_add(behind.codes),
        letters: sum
            .letters
            .saturating_add(behind.letters)
            .saturating_add(behind.codes),
    }
}
