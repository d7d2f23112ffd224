//! What a tag says. `specs/Tags.antt` has the definitions.

ghost use Rattle.std.specs.Prelude.{◌≡◌, ◌≢◌, ◌∷◌, [], ℕ, List, IfOk, MatchOption, OnOk};
ghost use Rattle.ux_grf.specs.declared.item.Item.{Item as ItemRecord};
ghost use Rattle.ux_grf.specs.declared.item.Item.TheVariants as ItemVariants;
ghost use Rattle.ux_grf.specs.declared.item.Piece.{Piece as PieceRecord};
ghost use Rattle.ux_grf.specs.declared.error.GrfError.TheVariants.{NoMemory as OutOfMemory};
ghost use Rattle.ux_net.specs.declared.label.Label.{Label as LabelRecord};
ghost use Rattle.ux_fst2.specs.Inner.{IsMarked};
ghost use Rattle.ux_fst2.specs.Tags.{AT, PERCENT, IsExactOf, IsItemOf, IsTag, IsTagContent};

use std::alloc::Global;
use ux_base::{Lst, Mem, NoMemory, Txt};
use ux_grf::{Content, GrfError, Item, Piece, read_content};
use ux_masks::{Mask, MaskError};
use ux_net::Label;

/// What a tag says.
#[derive(Drop)]
pub struct Tag {
    /// What an edge with the tag finds in the text.
    pub label: Label,
    /// What it puts out before that.
    pub output: Lst<Piece>,
}

/// The sign in front of a tag.
#[derive(Clone, Copy)]
pub(crate) enum Mark {
    /// `%`.
    Percent,
    /// `@`: a text is matched exactly.
    At,
}

/// What the text of a tag says, or nothing, where it says no label. Takes time in the text.
pub fn read_tag(alloc: Global, text: &str) -> Mem<Option<Tag>>
    ensures { IfOk result (λ some. MatchOption some
        ((label : LabelRecord) (output : List PieceRecord) → IsTag text.now label output → ⊥)
        (λ tag. IsTag text.now tag.label tag.output)) }
{
    if let Some(content) = behind_percent(text) {
        return read_behind(alloc, Mark::Percent, content);
    }
    if let Some(content) = behind_at(text) {
        return read_behind(alloc, Mark::At, content);
    }
    Ok(None)
}

/// The text behind a `%`, which begins it.
fn behind_percent(text: &str) -> Option<&str>
    ensures { MatchOption result ((rest : List ℕ) → text.now ≡ PERCENT ∷ rest → ⊥)
        (λ rest. text.now ≡ PERCENT ∷ rest.now) }
{
    text.strip_prefix('%')
}

/// The text behind an `@`, which begins it.
fn behind_at(text: &str) -> Option<&str>
    ensures { MatchOption result ((rest : List ℕ) → text.now ≡ AT ∷ rest → ⊥)
        (λ rest. text.now ≡ AT ∷ rest.now) }
{
    text.strip_prefix('@')
}

/// What a tag says that has this sign, and then this content.
fn read_behind(alloc: Global, mark: Mark, content: &str) -> Mem<Option<Tag>>
    ensures { IfOk result (λ some. MatchOption some
        ((label : LabelRecord) (output : List PieceRecord) →
        IsTagContent (IsMarked mark) content.now label output → ⊥)
        (λ tag. IsTagContent (IsMarked mark) content.now tag.label tag.output)) }
{
    match read_content(alloc, content) {
        Ok(read) => tag_of(alloc, mark, read),
        Err(error) => {
            unless_memory(error)?;
            Ok(None)
        }
    }
}

/// Want of memory, if the error is that.
fn unless_memory(error: GrfError) -> Mem<()>
    ensures { OnOk result (error ≢ OutOfMemory) }
{
    if matches!(error, GrfError::NoMemory) {
        return Err(NoMemory);
    }
    Ok(())
}

/// The tag with this sign whose content was read.
fn tag_of(alloc: Global, mark: Mark, read: Content) -> Mem<Option<Tag>>
    ensures { IfOk result (λ some. MatchOption some
        ((item : ItemRecord) (label : LabelRecord) → read.lines ≡ (item ∷ []) ∷ [] →
        IsMarked mark item label → ⊥)
        (λ tag. (item : ItemRecord) × (read.lines ≡ (item ∷ []) ∷ [])
        × IsMarked mark item tag.label × (tag.output ≡ read.output))) }
{
    let Content { lines, output } = read;
    let Some(item) = only_item(lines) else {
        return Ok(None);
    };
    match label_of(alloc, mark, item)? {
        Some(label) => Ok(Some(Tag { label, output })),
        None => Ok(None),
    }
}

/// The item of lines that are one line of one item.
fn only_item(lines: Lst<Lst<Item>>) -> Option<Item>
    ensures { MatchOption result ((item : ItemRecord) → lines ≡ (item ∷ []) ∷ [] → ⊥)
        (λ item. lines ≡ (item ∷ []) ∷ []) }
{
    let mut lines = lines.into_vec();
    let line = lines.pop()?;
    if !lines.is_empty() {
        return None;
    }
    let mut items = line.into_vec();
    let item = items.pop()?;
    if !items.is_empty() {
        return None;
    }
    Some(item)
}

/// The label that an item is behind this sign.
fn label_of(alloc: Global, mark: Mark, item: Item) -> Mem<Option<Label>>
    ensures { IfOk result (λ some. MatchOption some
        ((label : LabelRecord) → IsMarked mark item label → ⊥) (IsMarked mark item)) }
{
    match mark {
        Mark::Percent => folded_label(alloc, item),
        Mark::At => Ok(exact_label(item)),
    }
}

/// The label that an item is behind `%`.
fn folded_label(alloc: Global, item: Item) -> Mem<Option<Label>>
    ensures { IfOk result (λ some. MatchOption some
        ((label : LabelRecord) → IsItemOf item label → ⊥) (IsItemOf item)) }
{
    match item {
        Item::Literal(text) => Ok(Some(Label::CaseFolded(text))),
        Item::Quoted(text) => Ok(space_label(&text)),
        Item::Mask(text) => mask_label(alloc, &text),
        Item::Brace(text) => Ok(Some(Label::Brace(text))),
        Item::NoSpace => Ok(Some(Label::NoSpace)),
        Item::Empty => Ok(Some(Label::Empty)),
        Item::Call(_) => Ok(None),
        Item::Begin(name) => Ok(Some(Label::Begin(name))),
        Item::End(name) => Ok(Some(Label::End(name))),
        Item::Positive => Ok(Some(Label::Positive)),
        Item::Negative => Ok(Some(Label::Negative)),
        Item::ContextEnd => Ok(Some(Label::ContextEnd)),
        Item::Cut => Ok(Some(Label::Cut)),
    }
}

/// The label of a quoted text, which has to be one space.
fn space_label(text: &Txt) -> Option<Label>
    ensures { MatchOption result
        ((label : LabelRecord) → IsItemOf (ItemVariants.Quoted text.now) label → ⊥)
        (IsItemOf (ItemVariants.Quoted text.now)) }
{
    if text.as_str() == " " {
        return Some(Label::Space);
    }
    None
}

/// The label of a mask text.
fn mask_label(alloc: Global, text: &Txt) -> Mem<Option<Label>>
    ensures { IfOk result (λ some. MatchOption some
        ((label : LabelRecord) → IsItemOf (ItemVariants.Mask text.now) label → ⊥)
        (IsItemOf (ItemVariants.Mask text.now))) }
{
    match Mask::read(alloc, text.as_str()) {
        Ok(mask) => Ok(Some(Label::Mask(mask))),
        Err(MaskError::BadMask { .. }) => Ok(None),
        Err(MaskError::NoMemory) => Err(NoMemory),
    }
}

/// The label that an item is behind `@`.
fn exact_label(item: Item) -> Option<Label>
    ensures { MatchOption result
        ((label : LabelRecord) → IsExactOf item label → ⊥) (IsExactOf item) }
{
    match item {
        Item::Literal(text) => Some(Label::CaseExact(text)),
        Item::Quoted(_)
        | Item::Mask(_)
        | Item::Brace(_)
        | Item::NoSpace
        | Item::Empty
        | Item::Call(_)
        | Item::Begin(_)
        | Item::End(_)
        | Item::Positive
        | Item::Negative
        | Item::ContextEnd
        | Item::Cut => None,
    }
}
