//! The hash of a state: one multiplication for its number of a list, and one for each edge.
//!
//! The two halves of a product of 128 bits are joined by `^`, so that all bits of a word reach all
//! bits of the next product. The hash is the low half of the last one. No contract depends on how
//! well it spreads states over buckets.

ghost use Rattle.std.specs.Prelude.{◌≡◌};
ghost use Rattle.ux_dawg.specs.Flat.{state_of};
ghost use Rattle.ux_dawg.specs.Hash.{code_word, edge_word, folded, hash_of, mixed, mixed_words};

use crate::state::Edge;

/// Odd, and its bits have no pattern: 2^64 over the golden ratio.
const MULTIPLIER: u64 = 0x9e37_79b9_7f4a_7c15;

/// Where a hash begins: digits of pi.
const SEED: u64 = 0x243f_6a88_85a3_08d3;

/// The hash of the state with this number of a list and these edges.
pub(crate) fn state_hash(code: Option<u32>, edges: &[Edge]) -> u32
    ensures { result ≡ hash_of (state_of code edges.now) }
{
    (mix_state(code, edges) & 0xffff_ffff) as u32
}

/// The words of the state, mixed one after another.
fn mix_state(code: Option<u32>, edges: &[Edge]) -> u64
    ensures { result ≡ mixed_words (state_of code edges.now) }
{
    let start = mix(SEED, word_of_code(code));
    edges.iter().fold(
        start,
        |hash, edge| mix(hash, word_of_edge(edge.letter, edge.target)),
    )
}

/// A number of a list as a word, other than that of none.
fn word_of_code(code: Option<u32>) -> u64
    ensures { result ≡ code_word code }
{
    match code {
        Some(code) => u64::from(code) + 1,
        None => 0,
    }
}

/// An edge as a word.
fn word_of_edge(letter: char, target: u32) -> u64
    ensures { result ≡ edge_word letter target }
{
    letter as u64 * 0x1_0000_0000 + target as u64
}

/// A word mixed into a hash.
fn mix(hash: u64, word: u64) -> u64
    ensures { result ≡ mixed hash word }
{
    folded_product(hash ^ word, MULTIPLIER)
}

/// The two halves of a product, joined.
fn folded_product(a: u64, b: u64) -> u64
    ensures { result ≡ folded a b }
{
    let product = a as u128 * b as u128;
    (product & 0xffff_ffff_ffff_ffff) as u64 ^ (product >> 64) as u64
}
