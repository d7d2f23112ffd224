//! What begins at a place of a line: an item, a space between items, or a fault.
//!
//! `specs/Items.antt` says for each sign what begins there.

ghost use Rattle.std.specs.Prelude.{◌≡◌, [], ◌∷◌, false, drop, IfOk};
ghost use Rattle.ux_grf.specs.Items.{sign_of, sign_at, begin_by, begin_of, quoted_begin, mask_begin, brace_begin, literal_begin, mask_item, some_text, IsByte, BeginsInAscii, Leaves};
ghost use Rattle.ux_grf.specs.declared.item.Item.TheVariants.{Literal, Quoted};
ghost use Rattle.ux_grf.specs.declared.protection.Stop.TheVariants.{Mark, Greater, CloseBrace, LiteralEnd};
ghost use Rattle.ux_grf.specs.Protection.{first_free};
ghost use Rattle.ux_grf.specs.declared.start.Sign.TheVariants.{Other};

use crate::item::Item;
use crate::protection::{Layer, Stop, find_free, is_open, resolve};
use crate::words::{after, before, from, through};
use std::alloc::{AllocError, Global};
use ux_base::Txt;

/// The sign at a place of a line.
#[derive(Clone, Copy)]
pub enum Sign {
    /// The content is over.
    Nothing,
    /// `+`: another line follows.
    Plus,
    /// `/`: the output follows.
    Slash,
    /// A space or a tab.
    Blank,
    /// `#`.
    Sharp,
    /// A quotation mark.
    Quotation,
    /// `<`.
    Less,
    /// `{`.
    OpenBrace,
    /// Anything else, which begins a literal.
    Other,
}

/// What begins at a place of a line.
#[derive(Drop)]
pub enum Start<'a> {
    /// Nothing: the line is over.
    Over,
    /// A part that writes this item or none, before this rest.
    Written(Option<Item>, &'a str),
    /// A fault, with what stands from there on.
    Bad(&'a str),
}

/// What begins at the front of the text.
pub fn read_start<'a>(alloc: Global, text: &'a str) -> Result<Start<'a>, AllocError>
    ensures begins { IfOk result (λ start. begin_by start ≡ begin_of text.now) }
    ensures leaves { IfOk result (Leaves text.now) }
{
    match first_sign(text) {
        Sign::Nothing | Sign::Plus | Sign::Slash => Ok(Start::Over),
        Sign::Blank => Ok(Start::Written(None, after(text, 0))),
        Sign::Sharp => Ok(Start::Written(Some(Item::NoSpace), after(text, 0))),
        Sign::Quotation => start_quoted(alloc, text),
        Sign::Less => start_mask(alloc, text),
        Sign::OpenBrace => start_brace(alloc, text),
        Sign::Other => start_literal(alloc, text),
    }
}

/// The sign at the front of the text.
fn first_sign(text: &str) -> Sign
    ensures is { result ≡ sign_at text.now }
    ensures byte { IsByte result text.now }
{
    match text.as_bytes().first() {
        Some(byte) => byte_sign(*byte),
        None => Sign::Nothing,
    }
}

fn byte_sign(byte: u8) -> Sign
    ensures is { result ≡ sign_of byte }
    ensures ascii { IsByte result (byte ∷ []) }
{
    match byte {
        b'+' => Sign::Plus,
        b'/' => Sign::Slash,
        b' ' | b'\t' => Sign::Blank,
        b'#' => Sign::Sharp,
        b'"' => Sign::Quotation,
        b'<' => Sign::Less,
        b'{' => Sign::OpenBrace,
        _ => Sign::Other,
    }
}

/// A quoted text, or a fault where it isn't closed.
fn start_quoted<'a>(alloc: Global, text: &'a str) -> Result<Start<'a>, AllocError>
    requires { BeginsInAscii text.now }
    ensures begins { IfOk result (λ start. begin_by start
        ≡ quoted_begin text.now (first_free Mark false (drop 1 text.now))) }
    ensures leaves { IfOk result (Leaves text.now) }
{
    let inside = after(text, 0);
    let Some(end) = find_free(Stop::Mark, inside) else {
        return Ok(Start::Bad(text));
    };
    let quoted = Txt::new(resolve(alloc, Layer::Language, before(inside, end))?);
    Ok(Start::Written(quoted_item(quoted), after(inside, end)))
}

/// The item of a quoted text that isn't empty.
fn quoted_item(text: Txt) -> Option<Item>
    ensures { result ≡ some_text Quoted text }
{
    if text.as_str().is_empty() {
        None
    } else {
        Some(Item::Quoted(text))
    }
}

/// A mask, or a fault where it isn't closed or is empty.
fn start_mask<'a>(alloc: Global, text: &'a str) -> Result<Start<'a>, AllocError>
    requires { BeginsInAscii text.now }
    ensures begins { IfOk result (λ start. begin_by start
        ≡ mask_begin text.now (first_free Greater false (drop 1 text.now))) }
    ensures leaves { IfOk result (Leaves text.now) }
{
    let inside = after(text, 0);
    match find_free(Stop::Greater, inside) {
        None | Some(0) => Ok(Start::Bad(text)),
        Some(end) => Ok(Start::Written(
            Some(read_mask(alloc, before(inside, end))?),
            after(inside, end),
        )),
    }
}

/// The item of a mask's text.
fn read_mask(alloc: Global, text: &str) -> Result<Item, AllocError>
    ensures { IfOk result (λ item. item ≡ mask_item text.now) }
{
    if text == "E" {
        Ok(Item::Empty)
    } else {
        Ok(Item::Mask(Txt::from_str(alloc, text)?))
    }
}

/// A text in braces, or a fault where it isn't closed.
fn start_brace<'a>(alloc: Global, text: &'a str) -> Result<Start<'a>, AllocError>
    requires { BeginsInAscii text.now }
    ensures begins { IfOk result (λ start. begin_by start
        ≡ brace_begin text.now (first_free CloseBrace false (drop 1 text.now))) }
    ensures leaves { IfOk result (Leaves text.now) }
{
    let inside = after(text, 0);
    let Some(end) = find_free(Stop::CloseBrace, inside) else {
        return Ok(Start::Bad(text));
    };
    let _len = text.len();
    let whole = Txt::from_str(alloc, through(text, end + 1))?;
    Ok(Start::Written(Some(Item::Brace(whole)), after(inside, end)))
}

/// A literal, or a fault where a backslash ends the content.
fn start_literal<'a>(alloc: Global, text: &'a str) -> Result<Start<'a>, AllocError>
    requires { sign_at text.now ≡ Other }
    ensures begins { IfOk result (λ start. begin_by start
        ≡ literal_begin text.now (first_free LiteralEnd false text.now)) }
    ensures leaves { IfOk result (Leaves text.now) }
{
    match find_free(Stop::LiteralEnd, text) {
        Some(end) => {
            let literal = Txt::new(resolve(alloc, Layer::Language, before(text, end))?);
            Ok(Start::Written(literal_item(literal), from(text, end)))
        },
        None if is_open(text) => Ok(Start::Bad("\\")),
        None => {
            let literal = Txt::new(resolve(alloc, Layer::Language, text)?);
            Ok(Start::Written(literal_item(literal), ""))
        },
    }
}

/// The item of a literal's text.
fn literal_item(text: Txt) -> Option<Item>
    ensures { result ≡ some_text Literal text }
{
    if text.as_str().is_empty() {
        None
    } else {
        Some(Item::Literal(text))
    }
}
