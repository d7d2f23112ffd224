//! Lines of one item: calls, variables, contexts and cuts.
//!
//! Such a line begins with `:` or `$` and has nothing beside its item but spaces and tabs.

ghost use Rattle.std.specs.Prelude.{◌≡◌, ◌<◌, ◌+◌, ◌-◌, ◌∷◌, [], codes, length, take, drop, slice_index, IfOk, IsTrue, true, false};
ghost use Rattle.std.specs.Str.{bytes_eq};
ghost use Rattle.std.specs.List.{list_all, list_any};
ghost use Rattle.ux_grf.specs.Words.{is_gap};
ghost use Rattle.ux_grf.specs.declared.words.Gap.TheVariants.{Blanks};
ghost use Rattle.ux_grf.specs.Lines.{without_front, without_back, without_ending, begins_blank, ends_blank, is_name, is_name_byte, is_bound_name, without_bar as without_bar_of, is_no_name_sign, call_of, call_item, bound_item, bound_of, dollar_item, is_marked, marked_item, word_item};

use crate::graph::GraphKind;
use crate::item::Item;
use crate::words::{Gap, after, before, is_gap_byte};
use std::alloc::{AllocError, Global};
use ux_base::Txt;

/// Whether the text begins with `:` or `$`.
pub fn begins_with_mark(text: &str) -> bool
    ensures { result ≡ is_marked text.now }
{
    matches!(text.as_bytes().first(), Some(b':' | b'$'))
}

/// The one item of a line that begins with `:` or `$`, or none where the line is bad.
pub fn marked(alloc: Global, kind: GraphKind, text: &str) -> Result<Option<Item>, AllocError>
    requires { is_marked text.now ≡ true }
    ensures { IfOk result (λ item. item ≡ marked_item kind text.now) }
{
    let rest = after(text, 0);
    if text.as_bytes().first() == Some(&b':') {
        called(alloc, without_grf(trimmed(skip_blanks(rest))))
    } else {
        dollar(alloc, kind, trimmed(rest))
    }
}

/// The call of the graph of this name, if it may be one.
fn called(alloc: Global, name: &str) -> Result<Option<Item>, AllocError>
    ensures { IfOk result (λ item. item ≡ call_of name.now) }
{
    if name.is_empty() || has_other_sign(name) {
        return Ok(None);
    }
    Ok(Some(Item::Call(Txt::from_str(alloc, name)?)))
}

/// Whether a sign stands in the text that no graph's name has.
fn has_other_sign(text: &str) -> bool
    ensures { result ≡ list_any is_no_name_sign text.now }
{
    text.as_bytes().iter().any(|byte| is_other_sign(*byte))
}

fn is_other_sign(byte: u8) -> bool
    ensures { result ≡ is_no_name_sign byte }
{
    matches!(byte, b':' | b'\\' | b'"' | b'<' | b'{')
}

/// The item of a line, from what stands after its `$`.
fn dollar(alloc: Global, kind: GraphKind, text: &str) -> Result<Option<Item>, AllocError>
    ensures { IfOk result (λ item. item ≡ dollar_item kind text.now) }
{
    match text {
        "" => Ok(Some(Item::Literal(Txt::from_str(alloc, "$")?))),
        "[" => Ok(Some(Item::Positive)),
        "![" => Ok(Some(Item::Negative)),
        "]" => Ok(Some(Item::ContextEnd)),
        "*" => Ok(Some(Item::Cut)),
        _ => bound_by(alloc, kind, text),
    }
}

/// Where a variable begins or ends, or the part inside a word.
fn bound_by(alloc: Global, kind: GraphKind, text: &str) -> Result<Option<Item>, AllocError>
    ensures { IfOk result (λ item. item ≡ bound_item kind text.now) }
{
    match (kind, text) {
        (GraphKind::Morphological, "<") => Ok(Some(Item::Begin(Txt::from_str(alloc, "<")?))),
        (GraphKind::Morphological, ">") => Ok(Some(Item::End(Txt::from_str(alloc, "<")?))),
        _ => bound(alloc, text),
    }
}

/// Where a variable begins or ends.
fn bound(alloc: Global, text: &str) -> Result<Option<Item>, AllocError>
    ensures { IfOk result (λ item. item ≡
        bound_of (take (length text.now - 1) text.now) (slice_index text.now (length text.now - 1))) }
{
    match text.as_bytes().last() {
        Some(b'(') => begin(alloc, before(text, text.len() - 1)),
        Some(b')') => end(alloc, before(text, text.len() - 1)),
        _ => Ok(None),
    }
}

/// Where the variable of this name begins, if it may be one.
fn begin(alloc: Global, name: &str) -> Result<Option<Item>, AllocError>
    ensures { IfOk result (λ item. item ≡ bound_of name.now 40) }
{
    if !is_bound(name) {
        return Ok(None);
    }
    Ok(Some(Item::Begin(Txt::from_str(alloc, name)?)))
}

/// Where the variable of this name ends, if it may be one.
fn end(alloc: Global, name: &str) -> Result<Option<Item>, AllocError>
    ensures { IfOk result (λ item. item ≡ bound_of name.now 41) }
{
    if !is_bound(name) {
        return Ok(None);
    }
    Ok(Some(Item::End(Txt::from_str(alloc, name)?)))
}

/// Whether a variable, or an output's variable after a bar, may have this name.
fn is_bound(name: &str) -> bool
    ensures { result ≡ is_bound_name name.now }
{
    is_variable(without_bar(name))
}

/// The text without a bar in front.
fn without_bar(text: &str) -> &str
    ensures { result.now ≡ without_bar_of text.now }
{
    if text.as_bytes().first() == Some(&b'|') {
        after(text, 0)
    } else {
        text
    }
}

/// Whether a variable may have this name.
fn is_variable(name: &str) -> bool
    ensures { result ≡ is_name name.now }
{
    !name.is_empty() && has_name_signs(name)
}

/// Whether each byte may stand in a variable's name.
fn has_name_signs(name: &str) -> bool
    ensures { result ≡ list_all is_name_byte name.now }
{
    name.as_bytes().iter().all(|byte| is_name_sign(*byte))
}

/// Whether a variable's name may have this byte.
pub fn is_name_sign(byte: u8) -> bool
    ensures { result ≡ is_name_byte byte }
{
    matches!(byte, b'a'..=b'z' | b'A'..=b'Z' | b'0'..=b'9' | b'_')
}

/// The text without one `.grf` at its end.
fn without_grf(text: &str) -> &str
    ensures { result.now ≡ without_ending (codes ".grf") text.now }
{
    if text.as_bytes().ends_with(b".grf") {
        before(text, text.len() - 4)
    } else {
        text
    }
}

/// The text without the spaces and tabs in front.
pub fn skip_blanks(text: &str) -> &str
    ensures { result.now ≡ without_front text.now }
{
    let mut rest = text;
    while begins_in_blank(rest) {
        rest = after(rest, 0);
    }
    rest
}

/// Whether a space or a tab begins the text.
fn begins_in_blank(text: &str) -> bool
    ensures { result ≡ begins_blank text.now }
{
    match text.as_bytes().first() {
        Some(byte) => is_gap_byte(Gap::Blanks, *byte),
        None => false,
    }
}

/// The text without the spaces and tabs at its end.
fn trimmed(text: &str) -> &str
    ensures { result.now ≡ without_back text.now }
{
    let mut front = text;
    while ends_in_blank(front) {
        front = before(front, front.len() - 1);
    }
    front
}

/// Whether a space or a tab ends the text.
fn ends_in_blank(text: &str) -> bool
    ensures { result ≡ ends_blank text.now }
{
    match text.as_bytes().last() {
        Some(byte) => is_gap_byte(Gap::Blanks, *byte),
        None => false,
    }
}
