//! The entries of a text's tags, each read once.

ghost use Rattle.std.specs.Prelude.{◌≡◌, ◌↔◌, Contains, List, IfOk, IsTrue, OnOk};
ghost use Rattle.ux_alphabet.specs.Letters.{Letters};
ghost use Rattle.ux_dela.specs.declared.entry.Entry.{Entry};
ghost use Rattle.ux_tokens.specs.Columns.{pieces_of};
ghost use Rattle.ux_tokens.specs.Cutting.{IsCutting};
ghost use Rattle.ux_tokens.specs.Entries.{AreEntriesOf, IsEntryOf, IsPutEntry};
ghost use Rattle.ux_tokens.specs.Tokens.{IsTag, OPENING_BRACE};
ghost use Rattle.ux_tokens.specs.declared.kind.Kind.TheVariants.{Tag};

use crate::cutting::Cut;
use crate::kind::Kind;
use crate::piece::Piece;
use crate::pieces::part;
use std::alloc::Global;
use std::collections::BTreeMap;
use ux_base::Mem;
use ux_dela::{Entry, read_tag};

/// Entries by the numbers of their tags.
pub(crate) type Entries = BTreeMap<u32, Entry>;

/// The entries of the tags of a text that is cut so. Takes a step a token, if there is a brace.
pub(crate) fn tag_entries(alloc: Global, text: &str, cut: &Cut) -> Mem<Entries>
    requires { (alphabet : Letters) × IsCutting alphabet text.now cut.now }
    ensures { IfOk result (AreEntriesOf text.now (pieces_of cut.now.pieces)) }
{
    // Most texts have no brace, and a search for one byte is faster than a look at each token.
    if has_brace(text) {
        return read_entries(alloc, text, cut);
    }
    Ok(BTreeMap::new(alloc))
}

/// Whether the text has a brace, as one with a tag has.
fn has_brace(text: &str) -> bool
    ensures { IsTrue result ↔ Contains text.now OPENING_BRACE }
{
    text.as_bytes().contains(&b'{')
}

/// The same by a look at each token.
fn read_entries(alloc: Global, text: &str, cut: &Cut) -> Mem<Entries>
    requires { (alphabet : Letters) × IsCutting alphabet text.now cut.now }
    ensures { IfOk result (AreEntriesOf text.now (pieces_of cut.now.pieces)) }
{
    let mut entries = BTreeMap::new(alloc);
    for i in 0..cut.pieces.len() {
        let piece = cut.pieces.at(i);
        if is_tag(piece) {
            let tag = part(text, &cut.pieces, i, i);
            put_entry(alloc, tag, piece.number, &mut entries)?;
        }
    }
    Ok(entries)
}

/// Whether the piece is a tag.
pub(crate) fn is_tag(piece: Piece) -> bool
    ensures { IsTrue result ↔ (piece.kind ≡ Tag) }
{
    piece.kind == Kind::Tag
}

/// Puts the entry of the tag with this number, unless it is there.
fn put_entry(alloc: Global, tag: &str, number: u32, entries: &mut Entries) -> Mem<()>
    requires { (entry : Entry) × IsTag tag.now entry }
    ensures { OnOk result (IsPutEntry entries.old entries.new number tag.now) }
{
    if entries.contains_key(&number) {
        return Ok(());
    }
    let entry = read_entry(alloc, tag)?;
    entries.insert(number, entry)?;
    Ok(())
}

/// The entry of a tag.
fn read_entry(alloc: Global, tag: &str) -> Mem<Entry>
    requires { (entry : Entry) × IsTag tag.now entry }
    ensures { IfOk result (IsEntryOf tag.now) }
{
    // The braces are ASCII, so no character is split.
    match read_tag(alloc, &tag[1..tag.len() - 1])? {
        Some(entry) => Ok(entry),
        None => unreachable!(),
    }
}
