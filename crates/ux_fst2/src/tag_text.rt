//! The text of a tag. `specs/Tags.antt` has the definition.

ghost use Rattle.std.specs.Prelude.{◌≡◌, ◌∷◌, ◌++◌, [], IfOk, OnOk, codes, string_bytes};
ghost use Rattle.std.specs.List.{flat_map};
ghost use Rattle.ux_fst2.specs.Masks.{mask_text};
ghost use Rattle.ux_fst2.specs.Tags.{item_text, mark_of, output_text, piece_text, tag_text, token_text};

use crate::masks::put_mask;
use crate::shielding::{Signs, put_shielded};
use std::alloc::{AllocError, Global};
use ux_base::Mem;
use ux_grf::Piece;
use ux_masks::Mask;
use ux_net::Label;

/// The tag of a label and an output. A call has none, and is printed as an empty item.
pub fn print_tag(alloc: Global, label: &Label, output: &[Piece]) -> Mem<String>
    ensures { IfOk result (λ text. string_bytes text ≡ tag_text label.now output.now) }
{
    let mut text = String::new(alloc);
    text.push_str(mark(label))?;
    put_item(&mut text, label)?;
    put_output(&mut text, output)?;
    Ok(text)
}

/// The sign in front of the tag of the label.
fn mark(label: &Label) -> &'static str
    ensures { result.now ≡ mark_of label.now ∷ [] }
{
    match label {
        Label::CaseExact(_) => "@",
        Label::Empty
        | Label::CaseFolded(_)
        | Label::Mask(_)
        | Label::Brace(_)
        | Label::Space
        | Label::NoSpace
        | Label::Begin(_)
        | Label::End(_)
        | Label::Positive
        | Label::Negative
        | Label::ContextEnd
        | Label::Cut
        | Label::Call(_) => "%",
    }
}

/// Puts the label in the box language.
fn put_item(out: &mut String, label: &Label) -> Result<(), AllocError>
    ensures { OnOk result (string_bytes out.new ≡ string_bytes out.old ++ item_text label.now) }
{
    match label {
        Label::Empty => out.push_str("<E>"),
        Label::CaseFolded(text) | Label::CaseExact(text) => put_token(out, text.as_str()),
        Label::Mask(mask) => put_between(out, mask),
        Label::Brace(text) => out.push_str(text.as_str()),
        Label::Space => out.push_str("\" \""),
        Label::NoSpace => out.push_str("#"),
        Label::Begin(name) => put_bound(out, name.as_str(), "("),
        Label::End(name) => put_bound(out, name.as_str(), ")"),
        Label::Positive => out.push_str("$["),
        Label::Negative => out.push_str("$!["),
        Label::ContextEnd => out.push_str("$]"),
        Label::Cut => out.push_str("$*"),
        Label::Call(_) => Ok(()),
    }
}

/// Puts the text of a token.
fn put_token(out: &mut String, text: &str) -> Result<(), AllocError>
    ensures { OnOk result (string_bytes out.new ≡ string_bytes out.old ++ token_text text.now) }
{
    put_shielded(out, Signs::Text, text)
}

/// Puts the mask between `<` and `>`.
fn put_between(out: &mut String, mask: &Mask) -> Result<(), AllocError>
    ensures { OnOk result (string_bytes out.new
        ≡ string_bytes out.old ++ (codes "<" ++ (mask_text mask.now ++ codes ">"))) }
{
    out.push_str("<")?;
    put_mask(out, mask)?;
    out.push_str(">")
}

/// Puts the beginning or the end of a variable, with the sign behind its name.
fn put_bound(out: &mut String, name: &str, sign: &str) -> Result<(), AllocError>
    ensures { OnOk result (string_bytes out.new
        ≡ string_bytes out.old ++ (codes "$" ++ (name.now ++ sign.now))) }
{
    out.push_str("$")?;
    out.push_str(name)?;
    out.push_str(sign)
}

/// Puts the output, behind a `/` where it isn't empty.
fn put_output(out: &mut String, output: &[Piece]) -> Result<(), AllocError>
    ensures { OnOk result (string_bytes out.new ≡ string_bytes out.old ++ output_text output.now) }
{
    if output.is_empty() {
        return Ok(());
    }
    out.push_str("/")?;
    put_pieces(out, output)
}

/// Puts the pieces of an output.
fn put_pieces(out: &mut String, output: &[Piece]) -> Result<(), AllocError>
    ensures { OnOk result (string_bytes out.new
        ≡ string_bytes out.old ++ flat_map piece_text output.now) }
{
    for piece in output {
        put_piece(out, piece)?;
    }
    Ok(())
}

/// Puts a piece of an output.
fn put_piece(out: &mut String, piece: &Piece) -> Result<(), AllocError>
    ensures { OnOk result (string_bytes out.new ≡ string_bytes out.old ++ piece_text piece.now) }
{
    match piece {
        Piece::Chars(text) => put_shielded(out, Signs::Output, text.as_str()),
        Piece::Value(name) => {
            out.push_str("$")?;
            out.push_str(name.as_str())?;
            out.push_str("$")
        }
    }
}
