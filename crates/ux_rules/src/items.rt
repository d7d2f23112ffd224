//! What stands in the lines of a rule's boxes, as signs.

ghost use Rattle.std.specs.Prelude.{◌≡◌, IfOk};
ghost use Rattle.ux_rules.specs.Words.{mark_of as mark_of_line};
ghost use Rattle.ux_rules.specs.Drafts.{mark_in as mark_in_text, test_in as test_in_mask, SaysItem, SaysMask, SaysText};

use crate::step::Sign;
use crate::test::Test;
use std::alloc::Global;
use ux_base::{Mem, NoMemory, Txt};
use ux_grf::Item;
use ux_masks::{Mask, MaskError};

/// The mark that stands alone in the line, if one does.
pub(crate) fn mark_of(line: &[Item]) -> Option<Sign>
    ensures { result ≡ mark_of_line line.now }
{
    match line {
        [Item::Mask(text)] => mark_in(text.as_str()),
        _ => None,
    }
}

/// The mark of a mask text, if it is one.
fn mark_in(text: &str) -> Option<Sign>
    ensures { result ≡ mark_in_text text.now }
{
    if text == "!" {
        return Some(Sign::If);
    }
    if text == "=" {
        return Some(Sign::Then);
    }
    None
}

/// The sign of an item, which is free where the item is empty. None where it tests no reading.
pub(crate) fn sign_of(alloc: Global, item: &Item) -> Mem<Option<Sign>>
    ensures { IfOk result (SaysItem item.now) }
{
    match item {
        Item::Literal(text) | Item::Quoted(text) => sign_of_text(alloc, text.as_str()),
        Item::Mask(text) => sign_of_mask(alloc, text.as_str()),
        Item::Empty => Ok(Some(Sign::Free)),
        Item::Brace(_)
        | Item::NoSpace
        | Item::Call(_)
        | Item::Begin(_)
        | Item::End(_)
        | Item::Positive
        | Item::Negative
        | Item::ContextEnd
        | Item::Cut => Ok(None),
    }
}

/// The sign of a text that a reading has as its form.
fn sign_of_text(alloc: Global, text: &str) -> Mem<Option<Sign>>
    ensures { IfOk result (SaysText text.now) }
{
    let form = Txt::from_str(alloc, text)?;
    Ok(Some(Sign::Read(Test::Form(form))))
}

/// The sign of a mask text, if its mask tests a reading.
fn sign_of_mask(alloc: Global, text: &str) -> Mem<Option<Sign>>
    ensures { IfOk result (SaysMask text.now) }
{
    match Mask::read(alloc, text) {
        Ok(mask) => Ok(sign_in(mask)),
        Err(MaskError::BadMask { place: _ }) => Ok(None),
        Err(MaskError::NoMemory) => Err(NoMemory),
    }
}

/// The sign of a mask, if it tests a reading.
fn sign_in(mask: Mask) -> Option<Sign>
    ensures { result ≡ test_in_mask mask }
{
    match mask {
        Mask::Lexical(lexical) => Some(Sign::Read(Test::Lexical(Mask::Lexical(lexical)))),
        Mask::NotLexical(lexical) => Some(Sign::Read(Test::Lexical(Mask::NotLexical(lexical)))),
        Mask::Dic => Some(Sign::Read(Test::Known)),
        Mask::NotDic => Some(Sign::Read(Test::Unknown)),
        Mask::Token => Some(Sign::Read(Test::Any)),
        Mask::Word
        | Mask::NotWord
        | Mask::Lower
        | Mask::NotLower
        | Mask::Upper
        | Mask::NotUpper
        | Mask::First
        | Mask::NotFirst
        | Mask::SDic
        | Mask::NotSDic
        | Mask::CDic
        | Mask::TDic
        | Mask::Nb => None,
    }
}
