//! The output of a box: characters, the values of variables and tests of them.
//!
//! `specs/Output.antt` has the definitions. A `$` that begins no value is a character.

ghost use Rattle.std.specs.Prelude.{◌≡◌, ◌≤◌, ◌+◌, ◌<◌, ◌++◌, ◌∷◌, [], length, take, drop, slice_index, false, true, IfOk, IfSome, OnOk};
ghost use Rattle.ux_grf.specs.declared.item.Piece.TheVariants.{Value};
ghost use Rattle.ux_grf.specs.Lines.{DOLLAR};
ghost use Rattle.ux_grf.specs.Output.{IsOutput, ArePieces, chars_in, first_value, names_value, name_len, test_len, value_len};

use crate::item::Piece;
use crate::marked::is_name_sign;
use crate::protection::{Layer, resolve};
use crate::words::{after, before};
use std::alloc::{AllocError, Global};
use ux_base::Txt;

/// The pieces of an output, of which `<E>` has none.
pub fn read_output(alloc: Global, text: &str) -> Result<Vec<Piece>, AllocError>
    ensures { IfOk result (λ pieces. IsOutput text.now pieces.items) }
{
    if text == "<E>" {
        return Ok(Vec::new(alloc));
    }
    read_pieces(alloc, text)
}

/// Characters and values in turn.
fn read_pieces(alloc: Global, text: &str) -> Result<Vec<Piece>, AllocError>
    ensures { IfOk result (λ pieces. ArePieces text.now pieces.items) }
{
    let mut pieces = Vec::new(alloc);
    let mut rest = text;
    while let Some(place) = find_value(rest) {
        put_chars(alloc, &mut pieces, before(rest, place))?;
        let inside = after(rest, place);
        put_value(alloc, &mut pieces, inside)?;
        rest = after_value(inside);
    }
    put_chars(alloc, &mut pieces, rest)?;
    Ok(pieces)
}

/// Puts the characters after the pieces, where there are any.
fn put_chars(alloc: Global, pieces: &mut Vec<Piece>, text: &str) -> Result<(), AllocError>
    ensures { OnOk result (pieces.new.items ≡ pieces.old.items ++ chars_in text.now) }
{
    let chars = resolve(alloc, Layer::Language, text)?;
    if !chars.as_str().is_empty() {
        pieces.push(Piece::Chars(Txt::new(chars)))?;
    }
    Ok(())
}

/// Puts the value that begins the text after the pieces.
fn put_value(alloc: Global, pieces: &mut Vec<Piece>, text: &str) -> Result<(), AllocError>
    requires { names_value text.now ≡ true }
    ensures { OnOk result (pieces.new.items
        ≡ pieces.old.items ++ Value (take (value_len text.now) text.now) ∷ []) }
{
    let name = Txt::from_str(alloc, before(text, value_length(text.as_bytes())))?;
    pieces.push(Piece::Value(name))?;
    Ok(())
}

/// What stands after the value that begins the text.
fn after_value(text: &str) -> &str
    requires { names_value text.now ≡ true }
    ensures { result.now ≡ drop (value_len text.now + 1) text.now }
{
    after(text, value_length(text.as_bytes()))
}

/// The place of the first `$` that begins a value and isn't protected.
fn find_value(text: &str) -> Option<usize>
    ensures place { result ≡ first_value false text.now }
    ensures inside { IfSome result (λ place. place < length text.now) }
    ensures dollar { IfSome result (λ place. slice_index text.now place ≡ DOLLAR) }
    ensures named { IfSome result (λ place. names_value (drop (place + 1) text.now) ≡ true) }
{
    let bytes = text.as_bytes();
    let mut protected = false;
    for (place, byte) in bytes.iter().enumerate() {
        if *byte == b'$' && !protected && begins_value(&bytes[place + 1..]) {
            return Some(place);
        }
        protected = *byte == b'\\' && !protected;
    }
    None
}

/// Whether a name, or a test of one, and a `$` begin the text.
fn begins_value(text: &[u8]) -> bool
    ensures { result ≡ names_value text.now }
{
    0 < name_length(text) && text.get(value_length(text)) == Some(&b'$')
}

/// How many bytes of a value begin the text: a name, and a test of it where one follows.
fn value_length(text: &[u8]) -> usize
    ensures { result ≡ value_len text.now }
{
    let name = name_length(text);
    name + test_length(&text[name..])
}

/// How many bytes of a test begin the text.
fn test_length(text: &[u8]) -> usize
    ensures len { result ≡ test_len text.now }
    ensures within { result ≤ length text.now }
{
    if text.starts_with(b".SET") {
        4
    } else if text.starts_with(b".UNSET") {
        6
    } else {
        0
    }
}

/// How many bytes of a name begin the text.
fn name_length(text: &[u8]) -> usize
    ensures len { result ≡ name_len text.now }
    ensures within { result ≤ length text.now }
{
    for (place, byte) in text.iter().enumerate() {
        if !is_name_sign(*byte) {
            return place;
        }
    }
    text.len()
}
