//! The different readings of a file of sentence automata, by number.
//!
//! A reading is known by its printed text. Readings are numbered in the order in which they come
//! in the file. One reading may be spelled in several ways, as `{run,run.V}` and `{run,.V}`: all of
//! them have one number. Texts are looked up as they are spelled, so that none is read twice.

ghost use Rattle.std.specs.Prelude.{◌≡◌, ◌⊎◌, ◌<◌, ◌^◌, All, Contains, Some, IfErr, IfOk, IfSome, MatchOption, length, slice_get};
ghost use Rattle.ux_dela.specs.Sound.{IsSound};
ghost use Rattle.ux_sentence.specs.Files.{LinkSays, Refuses, RefusesLink};
ghost use Rattle.ux_sentence.specs.Readings.{IsReading, IsSpellable};
ghost use Rattle.ux_sentence.specs.Written.{reading_text};
ghost use Rattle.ux_sentence.specs.declared.error.SentenceError.{SentenceError as ErrorRecord};
ghost use Rattle.ux_sentence.specs.declared.error.SentenceError.TheVariants.{NoMemory as OutOfMemory};
ghost use Rattle.ux_sentence.specs.declared.sentence.Link.{Link as LinkRecord};
ghost use Rattle.ux_sentence.specs.declared.sentence.Reading.{Reading as ReadingRecord};
ghost use Rattle.ux_sentence.specs.declared.sentence.Reading.TheVariants.{Word};
ghost use Rattle.ux_reading_table.specs.Alike.{AreAlike};
ghost use Rattle.ux_reading_table.specs.Entries.{entry_of};
ghost use Rattle.ux_reading_table.specs.Noted.{AreNoted};
ghost use Rattle.ux_reading_table.specs.Noting.{IsNumberIfKnown, IsToldIfKnown, spellings};
ghost use Rattle.ux_reading_table.specs.Numbered.{IsPlaceOfText, IsReadingText, IsTableOf};

use crate::codes::{KnownCodes, entry_parts};
use crate::entry_parts::{EntryParts, own_entry};
use crate::fields::fields_of;
use crate::likes::Likes;
use crate::noting::{Noted, place_of as spelled_place, printed_of};
use crate::numbered::NumberedLink;
use crate::numbered_text::NumberedText;
use indexmap::IndexSet;
use std::alloc::Global;
use std::marker::Model;
use ux_base::{Mem, Txt};
use ux_sentence::{Reading, SentenceError, read_reading};

/// The different readings of a file, each once, in the order in which they come. Contracts see it
/// as their printed texts.
#[derive(Drop)]
pub struct ReadingTable<'a> {
    /// The texts of links, as they are spelled in the file.
    spelled: IndexSet<&'a str>,
    /// For each the number of its reading, in the same order.
    numbers: Vec<u32>,
    /// The printed texts of the readings, by number.
    texts: IndexSet<Txt>,
    /// The codes of their entries.
    codes: KnownCodes<'a>,
    /// For each reading one that is alike.
    alike: Vec<u32>,
    /// For each link of the file, in order, the place of its text among the spelled ones, where it
    /// is looked for first.
    places: Vec<u32>,
}

impl<'a> Model for ReadingTable<'a> {
    ghost use Rattle.std.specs.Prelude.{List, ℕ};
    ghost use Rattle.ux_reading_table.specs.Alike.{AreAlike};
    ghost use Rattle.ux_reading_table.specs.Bare.{AreKnown};
    ghost use Rattle.ux_reading_table.specs.Kept.{IsKept};

    ghost Value = { List (List ℕ) };

    ghost view = { λ table. table.texts.keys };

    ghost invariant = { λ table.
        IsKept table.texts.keys table.spelled.keys table.numbers.items
        × AreKnown table.codes × AreAlike table.texts.keys table.alike.items };
}

impl<'a> ReadingTable<'a> {
    /// The readings of a file of sentences, or why its first bad line is refused. Takes time in the
    /// text. Each different reading takes some 130 bytes beside its printed text. More than
    /// 4,294,967,295 readings are want of memory.
    pub fn of(alloc: Global, text: &'a str) -> Result<ReadingTable<'a>, SentenceError>
        ensures ok { IfOk result (λ table. IsTableOf text.now table) }
        ensures refused { IfErr result (λ error. (error ≡ OutOfMemory) ⊎ Refuses text.now error) }
        ensures exact { IfOk result (λ _. (error : ErrorRecord) → Refuses text.now error → ⊥) }
    {
        let read = NumberedText::of(alloc, text)?;
        let NumberedText { table, .. } = read;
        Ok(table)
    }

    /// The table of what was noted.
    pub(crate) fn of_noted(noted: Noted<'a>) -> ReadingTable<'a>
        requires noted { AreNoted noted }
        requires texts { All IsReadingText noted.printed.keys }
        ensures { result ≡ noted.entry.printed.keys }
    {
        let Noted {
            spelled,
            numbers,
            printed,
            codes,
            likes,
            places,
        } = noted;
        let Likes { alike, .. } = likes;
        ReadingTable {
            spelled,
            numbers,
            texts: printed,
            codes,
            alike,
            places,
        }
    }

    /// The printed texts of the readings, by number.
    pub fn texts(&self) -> &[Txt]
        ensures { result.now ≡ self.now }
    {
        self.texts.as_slice()
    }

    /// The reading with the number. It is read anew from its printed text, in which codes are known.
    pub fn reading(&self, alloc: Global, number: usize) -> Mem<Reading>
        requires { number < length self.now }
        ensures spellable { IfOk result IsSpellable }
        ensures text { IfOk result (λ reading.
            slice_get self.now number ≡ Some (reading_text reading)) }
    {
        if let Some(parts) = self.entry_parts(number) {
            return Ok(Reading::Word(own_entry(alloc, &parts)?));
        }
        let texts = self.texts.as_slice();
        match read_reading(alloc, texts[number].as_str())? {
            Some(reading) => Ok(reading),
            None => unreachable!(),
        }
    }

    /// The parts of the reading with the number, where it is an entry in whose text no sign is
    /// protected and whose codes are known. Takes no memory. Of other readings it answers nothing:
    /// `reading` tells them all.
    pub fn entry_parts(&self, number: usize) -> Option<EntryParts<'_>>
        requires { number < length self.now }
        ensures sound { IfSome result (λ parts. IsSound (entry_of parts)) }
        ensures text { IfSome result (λ parts.
            slice_get self.now number ≡ Some (reading_text (Word (entry_of parts)))) }
    {
        let texts = self.texts.as_slice();
        entry_parts(&self.codes, texts[number].as_str())
    }

    /// For each reading one that is alike, mostly the first that is. What asks an entry for its
    /// codes alone has one answer for both. A reading of which none is known, or of which none is
    /// told here, is like itself.
    pub fn alike(&self) -> &[u32]
        ensures { AreAlike self.now result.now }
    {
        self.alike.as_slice()
    }

    /// The link that the line of this number says, in a sentence of so many states. So many links
    /// were before it in the file. Takes no memory where the table has the line's text.
    pub(crate) fn link(
        &self,
        alloc: Global,
        line: &str,
        number: usize,
        states: u64,
        before: usize,
    ) -> Result<NumberedLink, SentenceError>
        ensures ok { IfOk result (λ numbered. (link : LinkRecord) × LinkSays states line.now link
            × IsToldIfKnown self.now numbered link) }
        ensures err { IfErr result (λ error.
            (error ≡ OutOfMemory) ⊎ RefusesLink states line.now number error) }
    {
        let Some(fields) = fields_of(line, states) else {
            return Err(SentenceError::BadEdge { line: number });
        };
        let Some(reading) = self.number_of(alloc, fields.text, before)? else {
            return Err(SentenceError::BadEdge { line: number });
        };
        if fields.to <= fields.from {
            return Err(SentenceError::Backward { line: number });
        }
        Ok(NumberedLink {
            from: fields.from,
            to: fields.to,
            reading,
        })
    }

    /// The number of the reading that the text says, or nothing where it says none. A text that
    /// isn't spelled so in the table's file is read, and found by its printed text.
    fn number_of(&self, alloc: Global, text: &str, before: usize) -> Mem<Option<u32>>
        ensures { IfOk result (λ found. MatchOption found
            ((reading : ReadingRecord) → IsReading text.now reading → ⊥)
            (IsNumberIfKnown self.now text.now)) }
    {
        if let Some(index) = index_of(&self.spelled, text, self.places.get(before)) {
            return Ok(Some(self.numbers[index]));
        }
        let Some(printed) = printed_of(alloc, text)? else {
            return Ok(None);
        };
        Ok(Some(place_of(&self.texts, &printed)))
    }
}

/// The index of the text in the set. It is looked for first at the place, if there is one.
fn index_of(set: &IndexSet<&str>, text: &str, place: Option<&u32>) -> Option<usize>
    ensures { IfSome result (λ index. slice_get (spellings set.now) index ≡ Some text.now) }
{
    match index_at(set, text, place) {
        Some(index) => Some(index),
        None => spelled_place(set, text),
    }
}

/// The place, if the set has the text there.
fn index_at(set: &IndexSet<&str>, text: &str, place: Option<&u32>) -> Option<usize>
    ensures { IfSome result (λ index. slice_get (spellings set.now) index ≡ Some text.now) }
{
    let index = *place? as usize;
    let spelled = *set.get_index(index)?;
    if spelled == text {
        return Some(index);
    }
    None
}

/// The place of the text among these, or 0 where it isn't there.
fn place_of(texts: &IndexSet<Txt>, text: &Txt) -> u32
    requires { length texts.now.keys < 2 ^ 32 }
    ensures { Contains texts.now.keys text.now → IsPlaceOfText texts.now.keys text.now result }
{
    match texts.get_index_of(text) {
        Some(index) => index as u32,
        None => 0,
    }
}
