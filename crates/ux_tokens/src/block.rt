//! Blocks of plain bytes, which are cut into tokens byte by byte without a branch.
//!
//! The length of a word isn't foreseen by a processor, so a loop that ends with each word costs
//! more than its steps. Here each byte writes where a token may end, and only where it does the
//! next byte writes after it. Bytes that aren't ASCII, and braces, are left to `front`, and so is
//! all of a text whose alphabet is single, since there each letter ends a token.

ghost use Rattle.std.specs.Prelude.{◌≡◌, ◌≢◌, ◌+◌, ◌<◌, ◌≤◌, IsTrue, false, length, take, drop};
ghost use Rattle.std.specs.Str.{IsCharBoundary};
ghost use Rattle.ux_alphabet.specs.Letters.{Letters};
ghost use Rattle.ux_tokens.specs.Blocks.{AreClasses, AreFronts, BeginsPlain, IsPlainByte};
ghost use Rattle.ux_tokens.specs.declared.kind.Kind.TheVariants.{Word};

use crate::kind::Kind;

/// How many bytes are cut together.
pub(crate) const BLOCK: usize = 256;

/// Room for the tokens of a block, in columns.
#[derive(Drop)]
pub(crate) struct Block {
    /// The places after the tokens.
    pub(crate) ends: [u32; BLOCK],
    /// Their kinds.
    pub(crate) kinds: [Kind; BLOCK],
    /// Their numbers.
    pub(crate) numbers: [u32; BLOCK],
}

impl Block {
    /// Room for a block.
    pub(crate) fn new() -> Block {
        Block {
            ends: [0; BLOCK],
            kinds: [Kind::Other; BLOCK],
            numbers: [0; BLOCK],
        }
    }
}

/// How many bytes of a block can be cut: those before the first of it that isn't plain.
pub(crate) fn plain_len(text: &[u8]) -> usize
    ensures block { result ≤ BLOCK }
    ensures plain { 0 < result → BeginsPlain text.now (result + 1) }
    ensures within { 0 < result → result < length text.now }
{
    // Most blocks of another script than the Latin are known by their second byte.
    if text.len() > BLOCK && is_plain(text[1]) && are_plain(&text[..BLOCK + 1]) {
        return BLOCK;
    }
    plain_front(text)
}

/// The same by a look at each byte.
fn plain_front(text: &[u8]) -> usize
    ensures block { result ≤ BLOCK }
    ensures plain { 0 < result → BeginsPlain text.now (result + 1) }
    ensures within { 0 < result → result < length text.now }
{
    for place in 0..text.len() {
        if place > BLOCK || !is_plain(text[place]) {
            return if place == 0 { 0 } else { place - 1 };
        }
    }
    if text.is_empty() {
        0
    } else {
        (text.len() - 1).min(BLOCK)
    }
}

/// Whether all bytes are plain. All are looked at, so that the processor takes many at once.
fn are_plain(text: &[u8]) -> bool
    ensures { IsTrue result → BeginsPlain text.now (length text.now) }
{
    let mut all = true;
    for place in 0..text.len() {
        all &= is_plain(text[place]);
    }
    all
}

/// Whether a byte is ASCII and begins no mark.
fn is_plain(byte: u8) -> bool
    ensures { IsTrue result → IsPlainByte byte }
{
    (byte < 128) & (byte != b'{')
}

/// Cuts so many plain bytes, by an alphabet that isn't single. Answers how many tokens there are
/// whose end is known.
pub(crate) fn cut_plain(
    classes: &[Kind],
    text: &str,
    start: usize,
    len: usize,
    ends: &mut [u32],
    kinds: &mut [Kind],
) -> usize
    requires classes { length classes.now ≡ 128 }
    requires boundary { IsCharBoundary text.now start }
    requires within { start + len < length text.now }
    requires near { start + len < 4294967296 }
    requires plain { BeginsPlain (drop start text.now) (len + 1) }
    requires room { len ≤ length ends.old }
    requires kinds { length kinds.old ≡ length ends.old }
    ensures len { length ends.new ≡ length ends.old }
    ensures kinds_len { length kinds.new ≡ length kinds.old }
    ensures within { result ≤ len }
    ensures fronts { (alphabet : Letters) → alphabet.single ≡ false →
        AreClasses alphabet classes.now →
        AreFronts alphabet text.now start (take result ends.new) (take result kinds.new) }
{
    let bytes = text.as_bytes();
    let mut count = 0;
    let mut kind = classes[bytes[start] as usize];
    for place in start..start + len {
        let next = classes[bytes[place + 1] as usize];
        ends[count] = place as u32 + 1;
        kinds[count] = kind;
        count += ends_between(kind, next);
        kind = next;
    }
    count
}

/// 1 where a token ends between bytes of these kinds, else 0.
fn ends_between(kind: Kind, next: Kind) -> usize
    ensures bit { result ≤ 1 }
    ensures ends { result ≡ 1 → kind ≡ Word → next ≢ Word }
    ensures inside { result ≡ 0 → kind ≡ Word }
    ensures word { result ≡ 0 → next ≡ Word }
{
    ((kind != Kind::Word) | (next != Kind::Word)) as usize
}
