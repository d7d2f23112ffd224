//! The text of a mask. `specs/Masks.antt` has the definition.

ghost use Rattle.std.specs.Prelude.{◌≡◌, ◌++◌, ◌∷◌, [], ℕ, codes, string_bytes, OnOk};
ghost use Rattle.std.specs.List.{flat_map};
ghost use Rattle.ux_fst2.specs.Masks.{behind_sign, code_text, codes_text, is_code_alone, lemma_text, lexical_text, mask_text, name_text, target_text};

use crate::shielding::{Signs, put_shielded};
use std::alloc::AllocError;
use ux_base::Txt;
use ux_masks::{Mask, Parts};

/// Puts the mask, as it stands between `<` and `>`.
pub(crate) fn put_mask(out: &mut String, mask: &Mask) -> Result<(), AllocError>
    ensures { OnOk result (string_bytes out.new ≡ string_bytes out.old ++ mask_text mask.now) }
{
    match mask {
        Mask::Word => out.push_str("WORD"),
        Mask::NotWord => out.push_str("!WORD"),
        Mask::Lower => out.push_str("LOWER"),
        Mask::NotLower => out.push_str("!LOWER"),
        Mask::Upper => out.push_str("UPPER"),
        Mask::NotUpper => out.push_str("!UPPER"),
        Mask::First => out.push_str("FIRST"),
        Mask::NotFirst => out.push_str("!FIRST"),
        Mask::Dic => out.push_str("DIC"),
        Mask::NotDic => out.push_str("!DIC"),
        Mask::SDic => out.push_str("SDIC"),
        Mask::NotSDic => out.push_str("!SDIC"),
        Mask::CDic => out.push_str("CDIC"),
        Mask::TDic => out.push_str("TDIC"),
        Mask::Nb => out.push_str("NB"),
        Mask::Token => out.push_str("TOKEN"),
        Mask::Lexical(lexical) => put_parts(out, lexical.parts()),
        Mask::NotLexical(lexical) => {
            out.push_str("!")?;
            put_parts(out, lexical.parts())
        }
    }
}

/// Puts what a lexical mask asks for.
fn put_parts(out: &mut String, parts: &Parts) -> Result<(), AllocError>
    ensures { OnOk result (string_bytes out.new ≡ string_bytes out.old ++ lexical_text parts.now) }
{
    put_target(out, &parts.form, &parts.lemma)?;
    put_codes(out, stands_alone(parts), parts.need.as_slice())?;
    put_behind(out, "~", parts.forbid.as_slice())?;
    put_behind(out, ":", parts.infl.as_slice())?;
    Ok(())
}

/// Whether neither form nor lemma is told.
fn stands_alone(parts: &Parts) -> bool
    ensures { result ≡ is_code_alone parts.now.form parts.now.lemma }
{
    match (&parts.form, &parts.lemma) {
        (None, None) => true,
        (None, Some(_)) | (Some(_), None) | (Some(_), Some(_)) => false,
    }
}

/// Puts form and lemma, where they are told, up to the `.` behind them.
fn put_target(out: &mut String, form: &Option<Txt>, lemma: &Option<Txt>) -> Result<(), AllocError>
    ensures { OnOk result (string_bytes out.new
        ≡ string_bytes out.old ++ target_text form.now lemma.now) }
{
    match (form, lemma) {
        (None, None) => Ok(()),
        (None, Some(lemma)) => {
            put_name(out, lemma.as_str())?;
            out.push_str(".")
        }
        (Some(form), None) => {
            put_name(out, form.as_str())?;
            out.push_str(",.")
        }
        (Some(form), Some(lemma)) => {
            put_name(out, form.as_str())?;
            out.push_str(",")?;
            put_lemma(out, form.as_str(), lemma.as_str())?;
            out.push_str(".")
        }
    }
}

/// Puts the lemma, unless it is the form.
fn put_lemma(out: &mut String, form: &str, lemma: &str) -> Result<(), AllocError>
    ensures { OnOk result (string_bytes out.new
        ≡ string_bytes out.old ++ lemma_text form.now lemma.now) }
{
    if lemma == form {
        return Ok(());
    }
    put_name(out, lemma)
}

/// Puts the required codes, of which the first stands plainly where it is alone.
fn put_codes(out: &mut String, alone: bool, need: &[Txt]) -> Result<(), AllocError>
    ensures { OnOk result (string_bytes out.new ≡ string_bytes out.old ++ codes_text alone need.now) }
{
    let Some((first, later)) = need.split_first() else {
        return Ok(());
    };
    put_code(out, alone, first.as_str())?;
    put_behind(out, "+", later)
}

/// Puts the first required code.
fn put_code(out: &mut String, alone: bool, code: &str) -> Result<(), AllocError>
    ensures { OnOk result (string_bytes out.new ≡ string_bytes out.old ++ code_text alone code.now) }
{
    if alone {
        return out.push_str(code);
    }
    put_name(out, code)
}

/// Puts the names, the sign before each.
fn put_behind(out: &mut String, sign: &str, names: &[Txt]) -> Result<(), AllocError>
    ensures { (byte : ℕ) → sign.now ≡ byte ∷ [] → OnOk result (string_bytes out.new
        ≡ string_bytes out.old ++ flat_map (behind_sign byte) names.now) }
{
    for name in names {
        out.push_str(sign)?;
        put_name(out, name.as_str())?;
    }
    Ok(())
}

/// Puts a form, a lemma, a code or an alternative.
fn put_name(out: &mut String, name: &str) -> Result<(), AllocError>
    ensures { OnOk result (string_bytes out.new ≡ string_bytes out.old ++ name_text name.now) }
{
    put_shielded(out, Signs::Name, name)
}
