//! What is kept, as a numbered sentence, and the sentence for which a numbered one stands.

ghost use Rattle.std.specs.Prelude.{◌≡◌, ◌<◌, IfOk, map, length};
ghost use Rattle.ux_elag.specs.Numbers.{AreBelow, IsEmpty, IsOrdered, link_of, sentence_of, told};

use crate::text_order::in_text_order;
use std::alloc::Global;
use ux_base::{Lst, Mem, NoMemory, Txt};
use ux_reading_table::{NumberedLink, NumberedSentence};
use ux_sentence::{Link, Reading, Sentence};
use ux_subsets::{Automaton, Link as PlacedLink};

/// The sentence of what is kept, its links in the order of their texts. Without anything it has no
/// states.
pub(crate) fn ordered_sentence(
    alloc: Global,
    number: u32,
    kept: Option<Automaton>,
    texts: &[Txt],
) -> Mem<NumberedSentence>
    ensures { IfOk result (IsOrdered texts.now number kept) }
{
    let Some(automaton) = kept else {
        return Ok(without_states(alloc, number));
    };
    let Automaton { last, links } = automaton;
    let Some(states) = (last as u64).checked_add(1) else {
        return Err(NoMemory);
    };
    let links = in_text_order(links, texts);
    Ok(NumberedSentence {
        number,
        states,
        links: told_links(alloc, links.as_slice())?,
    })
}

/// The sentence that has no states.
pub(crate) fn without_states(alloc: Global, number: u32) -> NumberedSentence
    ensures { IsEmpty number result }
{
    NumberedSentence {
        number,
        states: 0,
        links: Vec::new(alloc),
    }
}

/// The links, as those of a sentence.
fn told_links(alloc: Global, links: &[PlacedLink]) -> Mem<Vec<NumberedLink>>
    ensures { IfOk result (λ found. found.items ≡ map told links.now) }
{
    let mut found = Vec::new(alloc);
    for link in links {
        found.push(told_link(link))?;
    }
    Ok(found)
}

/// The link, as one of a sentence.
fn told_link(link: &PlacedLink) -> NumberedLink
    ensures { result ≡ told link.now }
{
    NumberedLink {
        from: link.from as u64,
        to: link.to as u64,
        reading: link.reading,
    }
}

/// The sentence for which the numbered one stands, by these readings.
pub(crate) fn named_sentence(
    alloc: Global,
    readings: &[Reading],
    sentence: &NumberedSentence,
) -> Mem<Sentence>
    requires { AreBelow (length readings.now) sentence.now.links.items }
    ensures { IfOk result (λ named. named ≡ sentence_of readings.now sentence.now) }
{
    Ok(Sentence {
        number: sentence.number,
        states: sentence.states,
        links: Lst::new(named_links(alloc, readings, sentence.links.as_slice())?),
    })
}

/// The links for which numbered ones stand, by these readings.
fn named_links(alloc: Global, readings: &[Reading], links: &[NumberedLink]) -> Mem<Vec<Link>>
    requires { AreBelow (length readings.now) links.now }
    ensures { IfOk result (λ found. found.items ≡ map (link_of readings.now) links.now) }
{
    let mut found = Vec::new(alloc);
    for link in links {
        found.push(Link {
            from: link.from,
            to: link.to,
            reading: copy_reading(&readings[link.reading as usize])?,
        })?;
    }
    Ok(found)
}

/// A copy of the reading.
pub(crate) fn copy_reading(reading: &Reading) -> Mem<Reading>
    ensures { IfOk result (λ copy. copy ≡ reading.now) }
{
    match reading {
        Reading::Word(entry) => Ok(Reading::Word(entry.copy()?)),
        Reading::Raw(text) => Ok(Reading::Raw(text.clone()?)),
    }
}
