//! The loop that cuts a text into tokens and numbers them, in blocks where it can.

ghost use Rattle.std.specs.Prelude.{◌≡◌, ◌+◌, ◌<◌, ◌≤◌, ◌++◌, List, false, [], IfOk, IfErr, OnOk, length, drop};
ghost use Rattle.std.specs.Str.{IsCharBoundary};
ghost use Rattle.ux_alphabet.specs.Letters.{Letters};
ghost use Rattle.indexmap.specs.IndexSet.{index_set_len};
ghost use Rattle.ux_tokens.specs.Blocks.{AreClasses, AreFronts, BeginsPlain};
ghost use Rattle.ux_tokens.specs.Columns.{AreEven, pieces_from, pieces_of};
ghost use Rattle.ux_tokens.specs.Cutting.{IsCutting, IsSoFar, RefusesCut};
ghost use Rattle.ux_tokens.specs.Known.{AreKnown};
ghost use Rattle.ux_tokens.specs.Numbers.{texts_in};
ghost use Rattle.ux_tokens.specs.Regions.{IsFree};
ghost use Rattle.ux_tokens.specs.declared.piece.Piece.{Piece};

use crate::block::{BLOCK, Block, cut_plain, plain_len};
use crate::classes::classes;
use crate::front::number_front;
use crate::kind::Kind;
use crate::known::Known;
use crate::numbering::number_of_kind;
use crate::piece::Piece;
use crate::pieces::Pieces;
use crate::text_error::TextError;
use indexmap::IndexSet;
use std::alloc::{AllocError, Global};
use ux_alphabet::Alphabet;

/// The most tokens that a text may have.
pub const MAX_TOKENS: usize = 67_108_864;

/// The tokens of a text.
#[derive(Drop)]
pub struct Cut {
    /// The tokens, by where they end.
    pub pieces: Pieces,
    /// How many different tokens there are.
    pub different: usize,
}

/// Cuts a text without longer runs of white space into its tokens. Takes a step a character.
pub fn cut_text(alloc: Global, alphabet: &Alphabet, text: &str) -> Result<Cut, TextError>
    ensures ok { IfOk result (IsCutting alphabet.now text.now) }
    ensures err { IfErr result (RefusesCut alphabet.now text.now) }
{
    let classes = classes(alloc, alphabet)?;
    let mut numbers: IndexSet<&str> = IndexSet::new(alloc);
    let mut known = Known::new(alloc, text.len())?;
    cut_with(alloc, alphabet, &classes, &mut numbers, &mut known, text)
}

/// The tokens of the text, by tables that have none yet.
fn cut_with<'a>(
    alloc: Global,
    alphabet: &Alphabet,
    classes: &[Kind],
    numbers: &mut IndexSet<&'a str>,
    known: &mut Known,
    text: &'a str,
) -> Result<Cut, TextError>
    requires classes { AreClasses alphabet.now classes.now }
    requires none { texts_in numbers.now ≡ [] }
    requires known { AreKnown [] known.now }
    ensures ok { IfOk result (IsCutting alphabet.now text.now) }
    ensures err { IfErr result (RefusesCut alphabet.now text.now) }
{
    let mut pieces = Pieces::new(alloc);
    push_tokens(alphabet, classes, numbers, known, &mut pieces, text)?;
    Ok(Cut {
        pieces,
        different: numbers.len(),
    })
}

/// Puts the tokens of the text last, in blocks where it can.
fn push_tokens<'a>(
    alphabet: &Alphabet,
    classes: &[Kind],
    numbers: &mut IndexSet<&'a str>,
    known: &mut Known,
    pieces: &mut Pieces,
    text: &'a str,
) -> Result<(), TextError>
    requires classes { AreClasses alphabet.now classes.now }
    requires none { texts_in numbers.now ≡ [] }
    requires known { AreKnown [] known.now }
    requires no_pieces { pieces_of pieces.now ≡ [] }
    requires even { AreEven pieces.now }
    ensures so_far { OnOk result (IsSoFar alphabet.now text.now (length text.now)
        (pieces_of pieces.new) (texts_in numbers.new)) }
    ensures even { OnOk result (AreEven pieces.new) }
    ensures err { IfErr result (RefusesCut alphabet.now text.now) }
{
    let mut block = Block::new();
    let mut free = 0;
    let mut end = 0;
    while end < text.len() {
        let after = push_block(
            alphabet, classes, &mut block, numbers, known, pieces, text, end,
        )?;
        end = if after > end {
            after
        } else {
            push_front(alphabet, numbers, known, pieces, &mut free, text, end)?
        };
    }
    Ok(())
}

/// Puts the token last that begins at a place. Answers the place after it.
fn push_front<'a>(
    alphabet: &Alphabet,
    numbers: &mut IndexSet<&'a str>,
    known: &mut Known,
    pieces: &mut Pieces,
    free: &mut usize,
    text: &'a str,
    start: usize,
) -> Result<usize, TextError>
    requires free { IsFree text.now start free.old }
    requires some { start < length text.now }
    requires so_far { IsSoFar alphabet.now text.now start (pieces_of pieces.old)
        (texts_in numbers.old) }
    requires known { AreKnown (texts_in numbers.old) known.old }
    requires even { AreEven pieces.old }
    ensures so_far { IfOk result (λ end. IsSoFar alphabet.now text.now end (pieces_of pieces.new)
        (texts_in numbers.new)) }
    ensures known { OnOk result (AreKnown (texts_in numbers.new) known.new) }
    ensures even { OnOk result (AreEven pieces.new) }
    ensures some { IfOk result (λ end. start < end) }
    ensures free { IfOk result (λ end. IsFree text.now end free.new) }
    ensures err { IfErr result (RefusesCut alphabet.now text.now) }
{
    if pieces.len() == MAX_TOKENS {
        return Err(TextError::TooManyTokens);
    }
    let front = number_front(alphabet, numbers, known, free, text, start)?;
    let end = start + front.end;
    pieces.push(Piece {
        end,
        number: front.number,
        kind: front.kind,
    })?;
    Ok(end)
}

/// Puts the tokens of a block last that begins at a place. Answers the place after them, which is
/// that of the start where there is no block.
fn push_block<'a>(
    alphabet: &Alphabet,
    classes: &[Kind],
    block: &mut Block,
    numbers: &mut IndexSet<&'a str>,
    known: &mut Known,
    pieces: &mut Pieces,
    text: &'a str,
    start: usize,
) -> Result<usize, AllocError>
    requires classes { AreClasses alphabet.now classes.now }
    requires so_far { IsSoFar alphabet.now text.now start (pieces_of pieces.old)
        (texts_in numbers.old) }
    requires known { AreKnown (texts_in numbers.old) known.old }
    requires even { AreEven pieces.old }
    ensures so_far { IfOk result (λ end. IsSoFar alphabet.now text.now end (pieces_of pieces.new)
        (texts_in numbers.new)) }
    ensures known { OnOk result (AreKnown (texts_in numbers.new) known.new) }
    ensures even { OnOk result (AreEven pieces.new) }
    ensures in_order { IfOk result (λ end. start ≤ end) }
{
    let len = block_len(alphabet, pieces, text, start);
    if len == 0 {
        return Ok(start);
    }
    let count = cut_plain(classes, text, start, len, &mut block.ends, &mut block.kinds);
    let (ends, kinds) = (&block.ends[..count], &block.kinds[..count]);
    let given = &mut block.numbers[..];
    let given = &mut given[..count];
    let end = number_all(numbers, known, text, start, ends, kinds, given)?;
    pieces.extend(ends, given, kinds)?;
    Ok(end)
}

/// How many bytes can be cut together at a place. A block needs places in four bytes, and room for
/// as many tokens as bytes. Where the alphabet is single there is no block, since few of the texts
/// that are cut so are ASCII.
fn block_len(alphabet: &Alphabet, pieces: &Pieces, text: &str, start: usize) -> usize
    requires even { AreEven pieces.now }
    requires within { start ≤ length text.now }
    ensures block { result ≤ BLOCK }
    ensures runs { 0 < result → alphabet.now.single ≡ false }
    ensures near { 0 < result → pieces.now.ends.far.items ≡ [] }
    ensures room { 0 < result → length (pieces_of pieces.now) + BLOCK ≤ MAX_TOKENS }
    ensures fits { 0 < result → start + BLOCK < 4294967296 }
    ensures within { 0 < result → start + result < length text.now }
    ensures plain { 0 < result → BeginsPlain (drop start text.now) (result + 1) }
{
    if alphabet.single() {
        return 0;
    }
    let fits = start < u32::MAX as usize - BLOCK && pieces.len() <= MAX_TOKENS - BLOCK;
    if fits && pieces.ends.far.is_empty() {
        return plain_len(&text.as_bytes()[start..]);
    }
    0
}

/// The numbers of neighbouring tokens. Answers the place after them.
fn number_all<'a>(
    numbers: &mut IndexSet<&'a str>,
    known: &mut Known,
    text: &'a str,
    start: usize,
    ends: &[u32],
    kinds: &[Kind],
    given: &mut [u32],
) -> Result<usize, AllocError>
    requires boundary { IsCharBoundary text.now start }
    requires fronts { (alphabet : Letters) × AreFronts alphabet text.now start ends.now kinds.now }
    requires room { index_set_len numbers.old + length ends.now ≤ MAX_TOKENS }
    requires known { AreKnown (texts_in numbers.old) known.old }
    requires given { length given.old ≡ length ends.now }
    ensures given { length given.new ≡ length ends.now }
    ensures so_far { IfOk result (λ end. (alphabet : Letters) (pieces : List Piece) →
        AreFronts alphabet text.now start ends.now kinds.now →
        length pieces + length ends.now ≤ MAX_TOKENS →
        IsSoFar alphabet text.now start pieces (texts_in numbers.old) →
        IsSoFar alphabet text.now end (pieces ++ pieces_from ends.now given.new kinds.now)
        (texts_in numbers.new)) }
    ensures known { OnOk result (AreKnown (texts_in numbers.new) known.new) }
    ensures in_order { IfOk result (λ end. start ≤ end) }
{
    let mut from = start;
    for i in 0..ends.len() {
        let end = ends[i] as usize;
        let rest = &text[from..];
        given[i] = number_of_kind(
            numbers,
            known,
            kinds[i],
            &rest[..end - from],
            rest.as_bytes(),
        )?;
        from = end;
    }
    Ok(from)
}
