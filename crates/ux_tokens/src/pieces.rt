//! Where the tokens of a text lie.

ghost use Rattle.std.specs.Prelude.{◌≡◌, ◌+◌, ◌<◌, ◌≤◌, ◌++◌, ◌∷◌, [], Some, OnOk, length, take, slice_get, slice_range};
ghost use Rattle.ux_tokens.specs.Columns.{AreEven, pieces_from, pieces_of};
ghost use Rattle.ux_tokens.specs.Pieces.{ArePieces, end_from, tokens_from};
ghost use Rattle.ux_tokens.specs.Numbers.{different_texts};

use crate::ends::Ends;
use crate::kind::Kind;
use crate::piece::Piece;
use std::alloc::{AllocError, Global};

/// Tokens, in columns. Takes nine bytes a token.
#[derive(Drop)]
pub struct Pieces {
    /// The places after the tokens.
    pub ends: Ends,
    /// The tokens' numbers.
    pub numbers: Vec<u32>,
    /// The tokens' kinds.
    pub kinds: Vec<Kind>,
}

impl Pieces {
    /// No token.
    pub fn new(alloc: Global) -> Pieces
        ensures even { AreEven result }
        ensures none { pieces_of result ≡ [] }
    {
        Pieces {
            ends: Ends::new(alloc),
            numbers: Vec::new(alloc),
            kinds: Vec::new(alloc),
        }
    }

    /// Puts a token last.
    pub fn push(&mut self, piece: Piece) -> Result<(), AllocError>
        requires { AreEven self.old }
        ensures even { OnOk result (AreEven self.new) }
        ensures pieces { OnOk result (pieces_of self.new ≡ pieces_of self.old ++ piece ∷ []) }
    {
        self.ends.push(piece.end)?;
        self.numbers.push(piece.number)?;
        self.kinds.push(piece.kind)?;
        Ok(())
    }

    /// Puts tokens last, in columns that are as long as each other.
    pub(crate) fn extend(
        &mut self,
        ends: &[u32],
        numbers: &[u32],
        kinds: &[Kind],
    ) -> Result<(), AllocError>
        requires even { AreEven self.old }
        requires near { self.old.ends.far.items ≡ [] }
        requires ends { length ends.now ≡ length numbers.now }
        requires kinds { length kinds.now ≡ length numbers.now }
        ensures even { OnOk result (AreEven self.new) }
        ensures pieces { OnOk result (pieces_of self.new
            ≡ pieces_of self.old ++ pieces_from ends.now numbers.now kinds.now) }
    {
        self.ends.near.extend_from_slice(ends)?;
        self.numbers.extend_from_slice(numbers)?;
        self.kinds.extend_from_slice(kinds)?;
        Ok(())
    }

    /// How many tokens there are.
    pub fn len(&self) -> usize
        requires { AreEven self.now }
        ensures { result ≡ length (pieces_of self.now) }
    {
        self.numbers.len()
    }

    /// The token at a place.
    pub fn at(&self, i: usize) -> Piece
        requires { i < length (pieces_of self.now) }
        ensures { slice_get (pieces_of self.now) i ≡ Some result }
    {
        Piece {
            end: self.ends.at(i),
            number: self.numbers[i],
            kind: self.kinds[i],
        }
    }
}

/// Where the token at a place begins.
fn start_of(pieces: &Pieces, i: usize) -> usize
    requires { i ≤ length (pieces_of pieces.now) }
    ensures { result ≡ end_from 0 (take i (pieces_of pieces.now)) }
{
    if i == 0 { 0 } else { pieces.at(i - 1).end }
}

/// The bytes of neighbouring tokens, from the first to the last.
pub fn part<'a>(text: &'a str, pieces: &Pieces, first: usize, last: usize) -> &'a str
    requires in_order { first ≤ last }
    requires within { last < length (pieces_of pieces.now) }
    requires are { ArePieces text.now (pieces_of pieces.now)
        (different_texts (tokens_from text.now 0 (pieces_of pieces.now))) }
    ensures { result.now ≡ slice_range text.now (end_from 0 (take first (pieces_of pieces.now)))
        (end_from 0 (take (last + 1) (pieces_of pieces.now))) }
{
    let start = start_of(pieces, first);
    let end = start_of(pieces, last + 1);
    &text[start..end]
}
