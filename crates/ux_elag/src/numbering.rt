//! The readings of a sentence by their places in a list.
//!
//! The readings stand in the order of their texts.

ghost use Rattle.std.specs.Prelude.{◌≡◌, ◌↔◌, ◌<◌, ◌≤◌, ◌^◌, [], ℕ, All, Contains, IfOk, length, map, get_or};
ghost use Rattle.std.specs.List.Sorted.{IsStrictlySortedBy};
ghost use Rattle.std.specs.Ordering.{nat_cmp};
ghost use Rattle.std.specs.Cmp.Lexicographic.{slice_cmp};
ghost use Rattle.ux_sentence.specs.Valid.{HasSpellable};
ghost use Rattle.ux_reading_table.specs.Numbered.{text_of};
ghost use Rattle.ux_elag.specs.Numbering.{AreToldBy, IsNumbered, IsShownBy, link_at};

use crate::naming::copy_reading;
use crate::ranks::{in_order, place_of};
use std::alloc::Global;
use ux_base::{Mem, NoMemory, Txt};
use ux_reading_table::{NumberedLink, NumberedSentence};
use ux_sentence::{Link, Reading, Sentence, print_reading};

/// A sentence, its readings by their places.
#[derive(Drop)]
pub(crate) struct Numbered {
    /// The texts of the different readings, in order.
    pub texts: Vec<Txt>,
    /// The readings, in the order of their texts.
    pub readings: Vec<Reading>,
    /// The sentence, with the places of its readings.
    pub sentence: NumberedSentence,
}

/// The sentence, its readings by their places.
pub(crate) fn number(alloc: Global, sentence: &Sentence) -> Mem<Numbered>
    requires { All HasSpellable sentence.now.links }
    ensures { IfOk result (λ numbered. IsNumbered sentence.now numbered.texts.items
        numbered.readings.items numbered.sentence) }
{
    let links = sentence.links.as_slice();
    let texts = in_order(texts_of(alloc, links)?);
    if texts.len() > u32::MAX as usize {
        return Err(NoMemory);
    }
    let places = places_of(alloc, links, texts.as_slice())?;
    let shown = shown_by(alloc, places.as_slice(), texts.len())?;
    let readings = readings_of(alloc, links, shown.as_slice())?;
    let links = numbered_links(alloc, links, places.as_slice())?;
    Ok(Numbered {
        texts,
        readings,
        sentence: NumberedSentence {
            number: sentence.number,
            states: sentence.states,
            links,
        },
    })
}

/// The text of each link's reading.
fn texts_of(alloc: Global, links: &[Link]) -> Mem<Vec<Txt>>
    ensures { IfOk result (λ texts. texts.items ≡ map text_of links.now) }
{
    let mut texts = Vec::new(alloc);
    for link in links {
        texts.push(Txt::new(print_reading(alloc, &link.reading)?))?;
    }
    Ok(texts)
}

/// The place of the text of each link's reading among the texts.
fn places_of(alloc: Global, links: &[Link], texts: &[Txt]) -> Mem<Vec<usize>>
    requires in_order { IsStrictlySortedBy (slice_cmp nat_cmp) texts.now }
    requires there { All (λ link. Contains texts.now (text_of link)) links.now }
    ensures { IfOk result (λ places. AreToldBy texts.now links.now places.items) }
{
    let mut places = Vec::new(alloc);
    for link in links {
        let text = Txt::new(print_reading(alloc, &link.reading)?);
        places.push(place_of(texts, &text))?;
    }
    Ok(places)
}

/// For each place that is told, where it is told.
fn shown_by(alloc: Global, places: &[usize], count: usize) -> Mem<Vec<usize>>
    requires { All (λ place. place < count) places.now }
    ensures { IfOk result (λ shown. IsShownBy places.now count shown.items) }
{
    let mut shown = vec![in alloc; 0; count]?;
    for (index, place) in places.iter().enumerate() {
        shown[*place] = index;
    }
    Ok(shown)
}

/// The readings of the links with these indices.
fn readings_of(alloc: Global, links: &[Link], indices: &[usize]) -> Mem<Vec<Reading>>
    requires { All (λ index. index < length links.now) indices.now }
    ensures { IfOk result (λ readings.
        readings.items ≡ map (λ index. (link_at links.now index).reading) indices.now) }
{
    let mut readings = Vec::new(alloc);
    for index in indices {
        readings.push(copy_reading(&links[*index].reading)?)?;
    }
    Ok(readings)
}

/// The links, with these places of their readings.
fn numbered_links(alloc: Global, links: &[Link], places: &[usize]) -> Mem<Vec<NumberedLink>>
    requires told { length places.now ≡ length links.now }
    requires fit { All (λ place. place < 2 ^ 32) places.now }
    ensures froms { IfOk result (λ found.
        map (λ one. one.from) found.items ≡ map (λ link. link.from) links.now) }
    ensures tos { IfOk result (λ found.
        map (λ one. one.to) found.items ≡ map (λ link. link.to) links.now) }
    ensures readings { IfOk result (λ found. map (λ one. one.reading) found.items ≡ places.now) }
{
    let mut found = Vec::new(alloc);
    for (index, link) in links.iter().enumerate() {
        found.push(NumberedLink {
            from: link.from,
            to: link.to,
            reading: places[index] as u32,
        })?;
    }
    Ok(found)
}
