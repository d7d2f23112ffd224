//! The texts of links, noted as they come.
//!
//! A text is read where it comes for the first time. Readings are told apart by their printed
//! texts, and numbered as they come.

ghost use Rattle.std.specs.Prelude.{◌≡◌, ◌⊎◌, ◌<◌, ◌^◌, [], IfErr, IfNone, IfOk, IfSome, IsTrue, MatchOption, OnOk, Contains, Some, length, slice_get};
ghost use Rattle.ux_sentence.specs.Files.{LinkSays, RefusesLink};
ghost use Rattle.ux_sentence.specs.Readings.{IsReading};
ghost use Rattle.ux_sentence.specs.declared.error.SentenceError.TheVariants.{NoMemory as OutOfMemory};
ghost use Rattle.ux_sentence.specs.declared.sentence.Link.{Link as LinkRecord};
ghost use Rattle.ux_sentence.specs.declared.sentence.Reading.{Reading as ReadingRecord};
ghost use Rattle.ux_reading_table.specs.Bare.{AreKnown, KeepsCodes};
ghost use Rattle.ux_reading_table.specs.Liking.{HasCodesText};
ghost use Rattle.ux_reading_table.specs.Noted.{AreNoted};
ghost use Rattle.ux_reading_table.specs.Noting.{AddsSpelling, AddsText, IsSpelling, KeepsPlaces, NotesText, spellings};
ghost use Rattle.ux_reading_table.specs.Numbered.{AreDifferent, IsPlaceOfText, IsTold, text_of};

use crate::codes::{KnownCodes, codes_printed, no_codes};
use crate::fields::fields_of;
use crate::likes::{Likes, no_likes, note_like};
use crate::numbered::NumberedLink;
use indexmap::IndexSet;
use std::alloc::Global;
use ux_base::{Mem, NoMemory, Txt};
use ux_sentence::{SentenceError, print_reading, read_reading};

/// The different texts so far that say readings, and these readings by number.
#[derive(Drop)]
pub(crate) struct Noted<'a> {
    /// The texts, as they are spelled in the file.
    pub spelled: IndexSet<&'a str>,
    /// For each the number of its reading, in the same order.
    pub numbers: Vec<u32>,
    /// The printed texts of the readings, by number.
    pub printed: IndexSet<Txt>,
    /// The codes of their entries.
    pub codes: KnownCodes<'a>,
    /// Which readings have the same codes.
    pub likes: Likes,
    /// For each link, in the order of the file, the place of its text among the spelled ones.
    pub places: Vec<u32>,
}

/// No text.
pub(crate) fn nothing_noted<'a>(alloc: Global) -> Noted<'a>
    ensures noted { AreNoted result }
    ensures none { result.printed.keys ≡ [] }
{
    Noted {
        spelled: IndexSet::new(alloc),
        numbers: Vec::new(alloc),
        printed: IndexSet::new(alloc),
        codes: no_codes(alloc),
        likes: no_likes(alloc),
        places: Vec::new(alloc),
    }
}

/// Notes the text of the link that the line of this number says, in a sentence of so many states.
/// Answers the link, its reading told by its number.
pub(crate) fn note_link<'a>(
    alloc: Global,
    noted: &mut Noted<'a>,
    line: &'a str,
    number: usize,
    states: u64,
) -> Result<NumberedLink, SentenceError>
    requires { AreNoted noted.old }
    ensures noted { OnOk result (AreNoted noted.new) }
    ensures kept { OnOk result (KeepsPlaces noted.old.printed.keys noted.new.printed.keys) }
    ensures ok { IfOk result (λ numbered. (link : LinkRecord) × LinkSays states line.now link
        × AddsText noted.old.printed.keys (text_of link) noted.new.printed.keys
        × IsTold noted.new.printed.keys numbered link) }
    ensures err { IfErr result (λ error.
        (error ≡ OutOfMemory) ⊎ RefusesLink states line.now number error) }
{
    let Some(fields) = fields_of(line, states) else {
        return Err(SentenceError::BadEdge { line: number });
    };
    let Some(reading) = note(alloc, noted, fields.text)? else {
        return Err(SentenceError::BadEdge { line: number });
    };
    if fields.to <= fields.from {
        return Err(SentenceError::Backward { line: number });
    }
    Ok(NumberedLink {
        from: fields.from,
        to: fields.to,
        reading,
    })
}

/// Notes the text, if it says a reading. Answers the number of the reading.
fn note<'a>(alloc: Global, noted: &mut Noted<'a>, text: &'a str) -> Mem<Option<u32>>
    requires { AreNoted noted.old }
    ensures noted { IfOk result (λ found. IfSome found (λ _. AreNoted noted.new)) }
    ensures kept { IfOk result (λ found. IfSome found (λ _.
        KeepsPlaces noted.old.printed.keys noted.new.printed.keys)) }
    ensures says { IfOk result (λ found.
        NotesText found noted.old.printed.keys text.now noted.new.printed.keys) }
{
    let (place, is_new) = spell(&mut noted.spelled, text)?;
    noted.places.push(narrowed(place))?;
    if !is_new {
        return Ok(Some(noted.numbers[place]));
    }
    let Some(printed) = printed_by(alloc, &mut noted.codes, text)? else {
        return Ok(None);
    };
    let Printed { text, codes } = printed;
    let number = number_of(&mut noted.printed, text)?;
    note_like(
        &mut noted.likes,
        noted.codes.codes.as_slice(),
        codes,
        number,
    )?;
    noted.numbers.push(number)?;
    Ok(Some(number))
}

/// The place of the text in the set, which is the next one if it has none, and whether it is new.
pub(crate) fn spell<'a>(set: &mut IndexSet<&'a str>, text: &'a str) -> Mem<(usize, bool)>
    ensures added { IfOk result (λ found.
        AddsSpelling found.1 (spellings set.old) text.now (spellings set.new)) }
    ensures placed { IfOk result (λ found.
        slice_get (spellings set.new) found.0 ≡ Some text.now) }
{
    let (place, is_new) = set.insert_full(text)?;
    Ok((place, is_new))
}

/// The number of the text, which is the next one if it has none.
fn number_of(texts: &mut IndexSet<Txt>, text: Txt) -> Mem<u32>
    ensures number { IfOk result (IsPlaceOfText texts.new.keys text) }
    ensures kept { OnOk result (KeepsPlaces texts.old.keys texts.new.keys) }
    ensures added { OnOk result (AddsText texts.old.keys text texts.new.keys) }
    ensures different { OnOk result (AreDifferent texts.new.keys) }
    ensures few { OnOk result (length texts.new.keys < 2 ^ 32) }
{
    let (number, _is_new) = texts.insert_full(text)?;
    if texts.len() > u32::MAX as usize {
        return Err(NoMemory);
    }
    Ok(number as u32)
}

/// The printed text of a reading.
#[derive(Drop)]
struct Printed {
    text: Txt,
    /// The place of its codes among the known ones, if it is known.
    codes: Option<usize>,
}

/// The printed text of the reading that the text says, or nothing where it says none. The reading is
/// read and printed only where another text may be printed for it.
fn printed_by<'a>(alloc: Global, known: &mut KnownCodes<'a>, text: &'a str) -> Mem<Option<Printed>>
    requires { AreKnown known.old }
    ensures known { OnOk result (AreKnown known.new) }
    ensures kept { OnOk result (KeepsCodes known.old.codes.items known.new.codes.items) }
    ensures printed { IfOk result (λ found. MatchOption found
        ((reading : ReadingRecord) → IsReading text.now reading → ⊥)
        (λ printed. IsSpelling text.now printed.text)) }
    ensures codes { IfOk result (λ found. IfSome found (λ printed.
        IfSome printed.codes (HasCodesText known.new.codes.items printed.text))) }
{
    if let Some(place) = codes_printed(alloc, known, text)? {
        return Ok(Some(Printed {
            text: Txt::from_str(alloc, text)?,
            codes: Some(place),
        }));
    }
    let Some(printed) = printed_of(alloc, text)? else {
        return Ok(None);
    };
    Ok(Some(Printed {
        text: printed,
        codes: None,
    }))
}

/// The printed text of the reading that the text says, or nothing where it says none.
pub(crate) fn printed_of(alloc: Global, text: &str) -> Mem<Option<Txt>>
    ensures { IfOk result (λ found. MatchOption found
        ((reading : ReadingRecord) → IsReading text.now reading → ⊥) (IsSpelling text.now)) }
{
    let Some(reading) = read_reading(alloc, text)? else {
        return Ok(None);
    };
    let printed = print_reading(alloc, &reading)?;
    Ok(Some(Txt::new(printed)))
}

/// The place of the text in the set.
pub(crate) fn place_of(set: &IndexSet<&str>, text: &str) -> Option<usize>
    ensures some { IfSome result (λ place.
        slice_get (spellings set.now) place ≡ Some text.now) }
    ensures none { IfNone result (Contains (spellings set.now) text.now → ⊥) }
{
    set.get_index_of(text)
}

/// The place in 32 bits. A greater one becomes the greatest: it is noted to be tried first alone.
fn narrowed(place: usize) -> u32 {
    place.min(u32::MAX as usize) as u32
}
