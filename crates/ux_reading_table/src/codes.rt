//! The codes of entries, by the texts that are printed for them.
//!
//! Few codes differ, so they are found by their text, and read only where it is new.

ghost use Rattle.std.specs.Prelude.{◌≡◌, IfOk, IfSome, OnOk, Some, slice_get};
ghost use Rattle.ux_dela.specs.Printed.{IsCodesText};
ghost use Rattle.ux_dela.specs.declared.entry.Codes.{Codes as CodesRecord};
ghost use Rattle.ux_dela.specs.Sound.{IsSound};
ghost use Rattle.ux_sentence.specs.Written.{reading_text};
ghost use Rattle.ux_sentence.specs.declared.sentence.Reading.TheVariants.{Word};
ghost use Rattle.ux_reading_table.specs.Liking.{HasCodesText};
ghost use Rattle.ux_reading_table.specs.Bare.{AreKnown, KeepsCodes, lemma_or};
ghost use Rattle.ux_reading_table.specs.Entries.{entry_of};
ghost use Rattle.ux_reading_table.specs.Noting.{IsSpelling};

use crate::bare::{BareParts, bare_parts};
use crate::entry_parts::EntryParts;
use crate::noting::{place_of, spell};
use indexmap::IndexSet;
use std::alloc::Global;
use ux_base::Mem;
use ux_dela::{Codes, read_codes};

/// So many codes are kept. Where more differ, the others are read each time.
const MOST_CODES: usize = 4_096;

/// Codes by their texts.
#[derive(Drop)]
pub(crate) struct KnownCodes<'a> {
    /// The texts that are printed for them.
    pub texts: IndexSet<&'a str>,
    /// For each text its codes, in the same order.
    pub codes: Vec<Codes>,
}

/// No codes.
pub(crate) fn no_codes<'a>(alloc: Global) -> KnownCodes<'a>
    ensures { AreKnown result }
{
    KnownCodes {
        texts: IndexSet::new(alloc),
        codes: Vec::new(alloc),
    }
}

/// The place of the codes of the reading for which the text is printed, or one past all that are
/// known where too many differ. Where nothing is answered, it may say a reading all the same.
pub(crate) fn codes_printed<'a>(
    alloc: Global,
    known: &mut KnownCodes<'a>,
    text: &'a str,
) -> Mem<Option<usize>>
    requires { AreKnown known.old }
    ensures known { OnOk result (AreKnown known.new) }
    ensures kept { OnOk result (KeepsCodes known.old.codes.items known.new.codes.items) }
    ensures so { IfOk result (λ found. IfSome found (λ place. IsSpelling text.now text.now)) }
    ensures codes { IfOk result (λ found.
        IfSome found (HasCodesText known.new.codes.items text.now)) }
{
    let Some(parts) = bare_parts(text) else {
        return Ok(None);
    };
    let Some(place) = place_of_codes(alloc, known, parts.codes)? else {
        return Ok(None);
    };
    Ok(Some(place))
}

/// The parts of the entry for which the text is printed, where its codes are known.
pub(crate) fn entry_parts<'t>(known: &'t KnownCodes<'_>, text: &'t str) -> Option<EntryParts<'t>>
    requires { AreKnown known.now }
    ensures sound { IfSome result (λ parts. IsSound (entry_of parts)) }
    ensures text { IfSome result (λ parts. text.now ≡ reading_text (Word (entry_of parts))) }
{
    let parts = bare_parts(text)?;
    let codes = codes_of(known, parts.codes)?;
    Some(EntryParts {
        form: parts.form,
        lemma: lemma_of(&parts),
        codes,
    })
}

/// The lemma, which is the form where none is written.
fn lemma_of<'t>(parts: &BareParts<'t>) -> &'t str
    ensures { result.now ≡ lemma_or parts.now.form.now parts.now.lemma.now }
{
    if parts.lemma.is_empty() {
        parts.form
    } else {
        parts.lemma
    }
}

/// The place of the codes for which the text is printed, which are known from then on. It is one past
/// all that are known where too many differ.
fn place_of_codes<'a>(
    alloc: Global,
    known: &mut KnownCodes<'a>,
    text: &'a str,
) -> Mem<Option<usize>>
    requires { AreKnown known.old }
    ensures known { OnOk result (AreKnown known.new) }
    ensures kept { OnOk result (KeepsCodes known.old.codes.items known.new.codes.items) }
    ensures codes { IfOk result (λ found. IfSome found (λ place.
        (codes : CodesRecord) × IsCodesText text.now codes)) }
    ensures placed { IfOk result (λ found. IfSome found (λ place. (codes : CodesRecord) →
        slice_get known.new.codes.items place ≡ Some codes → IsCodesText text.now codes)) }
{
    if let Some(place) = place_of(&known.texts, text) {
        return Ok(Some(place));
    }
    let Some(codes) = read_codes(alloc, text)? else {
        return Ok(None);
    };
    let place = note_codes(known, text, codes)?;
    Ok(Some(place))
}

/// Notes the codes at their text. Answers their place.
fn note_codes<'a>(known: &mut KnownCodes<'a>, text: &'a str, codes: Codes) -> Mem<usize>
    requires known { AreKnown known.old }
    requires codes { IsCodesText text.now codes }
    ensures known { OnOk result (AreKnown known.new) }
    ensures kept { OnOk result (KeepsCodes known.old.codes.items known.new.codes.items) }
    ensures placed { IfOk result (λ place. (codes : CodesRecord) →
        slice_get known.new.codes.items place ≡ Some codes → IsCodesText text.now codes) }
{
    let place = known.codes.len();
    if place >= MOST_CODES {
        return Ok(place);
    }
    let (_place, is_new) = spell(&mut known.texts, text)?;
    if is_new {
        known.codes.push(codes)?;
    }
    Ok(place)
}

/// The codes at the text.
fn codes_of<'k>(known: &'k KnownCodes<'_>, text: &str) -> Option<&'k Codes>
    requires { AreKnown known.now }
    ensures { IfSome result (λ codes. IsCodesText text.now codes.now) }
{
    let place = place_of(&known.texts, text)?;
    Some(&known.codes[place])
}
