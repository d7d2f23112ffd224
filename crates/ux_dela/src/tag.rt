//! The bodies of tags, which stand between braces in a text.
//!
//! A tag's body is a line of forms that gives one entry. What isn't one, as the mark of a
//! sentence's end, is no error but no tag.

ghost use Rattle.std.specs.Prelude.{◌≡◌, ◌↔◌, IsTrue, IfOk, IfSome, MatchOption};
ghost use Rattle.ux_dela.specs.Reading.{characters, MayBeTag, TagSays};
ghost use Rattle.ux_dela.specs.Signs.{is_slash};
ghost use Rattle.ux_dela.specs.Written.{IsPart};
ghost use Rattle.ux_dela.specs.Sound.{IsSound, is_feed};
ghost use Rattle.std.specs.List.{list_any};
ghost use Rattle.ux_dela.specs.Tag.{IsTagBody};
ghost use Rattle.ux_dela.specs.declared.entry.Entry.{Entry};

use crate::codes::{CodeFault, read_list};
use crate::delaf::{Cut, cut_line, entry_of, has_mark, is_skipped};
use crate::entry::Entry;
use crate::part::{Stop, has_bare_sign};
use crate::plain::Mark;
use std::alloc::Global;
use ux_base::NoMemory;

/// The entry of a tag with this body, or nothing where the body is none. The time is linear in the
/// body.
pub fn read_tag(alloc: Global, body: &str) -> Result<Option<Entry>, NoMemory>
    ensures exact { IfOk result (λ found. MatchOption found
        ((entry : Entry) → IsTagBody body.now entry → ⊥) (IsTagBody body.now)) }
    ensures sound { IfOk result (λ found. IfSome found IsSound) }
{
    if !may_be_tag(body) {
        return Ok(None);
    }
    match cut_line(body, 1) {
        Ok(cut) => read_cut(alloc, &cut),
        Err(_) => Ok(None),
    }
}

/// Whether the body isn't skipped, and has neither a line feed nor a bare brace.
fn may_be_tag(body: &str) -> bool
    ensures { IsTrue result ↔ MayBeTag body.now }
{
    !is_skipped(body) && !has_feed(body) && !has_bare_sign(Stop::Brace, body)
}

/// The entry of a body that is cut so.
fn read_cut(alloc: Global, cut: &Cut<'_>) -> Result<Option<Entry>, NoMemory>
    requires { IsPart is_slash (characters cut.now.codes.now) }
    ensures { IfOk result (TagSays cut.now) }
{
    if !cut.comment.is_empty() || has_mark(cut) {
        return Ok(None);
    }
    match read_list(alloc, cut.codes) {
        Ok(codes) => Ok(Some(entry_of(alloc, cut, codes, Mark::AsItself)?)),
        Err(CodeFault::Empty(_)) => Ok(None),
        Err(CodeFault::NoRoom) => Err(NoMemory),
    }
}

/// Whether a line feed stands in the text.
pub(crate) fn has_feed(text: &str) -> bool
    ensures { result ≡ list_any is_feed text.now }
{
    text.as_bytes().iter().any(|byte| *byte == b'\n')
}
