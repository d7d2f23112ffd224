//! Tags: entries of a dictionary in braces.
//!
//! Where a brace begins no tag, the next one may, and so a text of braces could be looked at as often
//! as it has braces. But a body has no bare brace: what stands after a brace, up to the first bare
//! one, is a region, and all tags that begin in it end where it ends. It is read once from its end,
//! and no brace of it is looked at again before the first that begins a tag.

ghost use Rattle.std.specs.Prelude.{◌≡◌, ◌↔◌, ◌≤◌, Some, IsTrue, MatchOption, length, take, drop, slice_get};
ghost use Rattle.ux_tokens.specs.First.{IsTagFront};
ghost use Rattle.ux_tokens.specs.Regions.{Closes, IsFirstPlace, IsFound, IsFree, IsRegion, ends_at};
ghost use Rattle.ux_tokens.specs.Tokens.{BeginsWithTag, OPENING_BRACE};

use crate::tails::Rest;

/// The length in bytes of the tag at a place with a brace. `None` where none begins there. No tag
/// begins from there up to the free place, which this moves on.
pub(crate) fn tag_len(text: &[u8], start: usize, free: &mut usize) -> Option<usize>
    requires brace { slice_get (drop start text.now) 0 ≡ Some OPENING_BRACE }
    requires free { IsFree text.now start free.old }
    ensures exact { MatchOption result (BeginsWithTag (drop start text.now) → ⊥)
        (IsTagFront (drop start text.now)) }
    ensures free { IsFree text.now start free.new }
{
    if start < *free {
        return None;
    }
    let found = find_tag(&text[start..]);
    *free = start + found.free;
    if found.free > 0 {
        return None;
    }
    Some(found.len)
}

/// What is known of the tags of a text that begins with a brace.
#[derive(Clone, Copy)]
pub struct Found {
    /// At how many of the first places no tag begins.
    pub free: usize,
    /// The length of the tag at the front, where there is one.
    pub len: usize,
}

/// What is known of the tags of a text that begins with a brace.
///
/// A body has no bare brace, so all that begin in a region can only end where it ends. One look at
/// it from its end tells which of its braces begins a tag first.
fn find_tag(text: &[u8]) -> Found
    requires { slice_get text.now 0 ≡ Some OPENING_BRACE }
    ensures { IsFound text.now result }
{
    let behind = &text[1..];
    let len = region_len(behind);
    if !closes(&behind[len..]) {
        return Found {
            free: len + 1,
            len: 0,
        };
    }
    match first_place(&text[..len + 1]) {
        None => Found {
            free: len + 1,
            len: 0,
        },
        Some(place) => Found {
            free: place,
            len: len + 2,
        },
    }
}

/// The length of the region at the front.
fn region_len(text: &[u8]) -> usize
    ensures within { result ≤ length text.now }
    ensures region { IsRegion (take result text.now) (drop result text.now) }
{
    let mut protected = false;
    for place in 0..text.len() {
        let byte = text[place];
        if ends_region(byte, protected) {
            return place;
        }
        protected = !protected && byte == b'\\';
    }
    text.len()
}

/// Whether the brace that closes a tag stands at the front.
fn closes(text: &[u8]) -> bool
    ensures { IsTrue result ↔ Closes text.now }
{
    text.starts_with(b"}")
}

/// Whether a region ends before a byte.
fn ends_region(byte: u8, protected: bool) -> bool
    ensures { result ≡ ends_at protected byte }
{
    byte == b'\n' || (!protected && (byte == b'{' || byte == b'}'))
}

/// The first place of a region at which a tag begins that ends after it.
fn first_place(region: &[u8]) -> Option<usize>
    ensures { IsFirstPlace region.now 0 result }
{
    let mut first = None;
    let mut rest = Rest::of_end();
    let mut place = region.len();
    while place > 0 {
        place -= 1;
        let byte = region[place];
        if rest.begins_tag(byte) {
            first = Some(place);
        }
        rest = rest.with(byte);
    }
    first
}
