//! The marks that stand in a text: `{S}` for the end of a sentence, `{STOP}`, and tags.

ghost use Rattle.std.specs.Prelude.{◌≡◌, ◌↔◌, ◌≤◌, Some, IsTrue, MatchOption, length, drop, slice_get};
ghost use Rattle.ux_tokens.specs.First.{BeginsWithSign, IsMarkFront};
ghost use Rattle.ux_tokens.specs.Regions.{IsFree};
ghost use Rattle.ux_tokens.specs.Tokens.{BeginsWithMark, OPENING_BRACE};

use crate::kind::Kind;
use crate::tags::tag_len;

/// The mark at a place and its length in bytes. `None` where no mark begins there. No tag begins
/// from there up to the free place, which this moves on.
pub(crate) fn mark_at(text: &[u8], start: usize, free: &mut usize) -> Option<(Kind, usize)>
    requires within { start ≤ length text.now }
    requires free { IsFree text.now start free.old }
    ensures exact { MatchOption result (BeginsWithMark (drop start text.now) → ⊥)
        (λ (kind, len). IsMarkFront (drop start text.now) kind len) }
    ensures free { IsFree text.now start free.new }
{
    if !begins_with_brace(&text[start..]) {
        return None;
    }
    if let Some(sign) = sign_at_front(&text[start..]) {
        return Some(sign);
    }
    match tag_len(text, start, free) {
        None => None,
        Some(len) => Some((Kind::Tag, len)),
    }
}

/// The mark at the front that isn't a tag, and its length in bytes.
fn sign_at_front(text: &[u8]) -> Option<(Kind, usize)>
    ensures { MatchOption result (BeginsWithSign text.now → ⊥)
        (λ (kind, len). IsMarkFront text.now kind len) }
{
    if text.starts_with(b"{S}") {
        return Some((Kind::Sentence, 3));
    }
    if text.starts_with(b"{STOP}") {
        return Some((Kind::Stop, 6));
    }
    None
}

/// Whether a brace stands at the front, as one does where a mark begins.
fn begins_with_brace(text: &[u8]) -> bool
    ensures { IsTrue result ↔ (slice_get text.now 0 ≡ Some OPENING_BRACE) }
{
    match text.first() {
        Some(byte) => *byte == b'{',
        None => false,
    }
}
