//! How the links from one token are put in order: by what is printed for their readings.
//!
//! Most tokens have one link, for which nothing is printed. Otherwise each reading is printed once.

ghost use Rattle.std.specs.Prelude.{◌≡◌, ◌++◌, ◌∷◌, [], IfOk, OnOk, map};
ghost use Rattle.std.specs.List.Sorted.{IsPermutation, IsSorted};
ghost use Rattle.ux_text_automaton.specs.Candidates.{ArePutInOrder, keyed_cmp, keyed_of, link_in};
ghost use Rattle.ux_sentence.specs.Written.{CLOSING_BRACE, OPENING_BRACE, reading_text};
ghost use Rattle.ux_sentence.specs.declared.sentence.Reading.TheVariants.{Word};

use std::alloc::{AllocError, Global};
use std::cmp::Ordering;
use ux_base::{Mem, Txt};
use ux_dela::{Entry, print_delaf};
use ux_sentence::{Link, Reading};

/// Puts the links last, in order.
pub(crate) fn put_in_order(links: &mut Vec<Link>, alloc: Global, mut found: Vec<Link>) -> Mem<()>
    ensures { OnOk result (ArePutInOrder found.items links.old.items links.new.items) }
{
    if found.len() > 1 {
        return put_sorted(links, alloc, found);
    }
    links.append(&mut found)?;
    Ok(())
}

/// The same for two links or more.
fn put_sorted(links: &mut Vec<Link>, alloc: Global, found: Vec<Link>) -> Mem<()>
    ensures { OnOk result (ArePutInOrder found.items links.old.items links.new.items) }
{
    let mut all = with_texts(alloc, found)?;
    sort(&mut all);
    put_links(links, all)?;
    Ok(())
}

/// A link with what is printed for its reading.
#[derive(Drop)]
pub(crate) struct Keyed {
    /// What is printed for the reading.
    pub printed: Txt,
    pub link: Link,
}

/// The links with what is printed for their readings.
fn with_texts(alloc: Global, found: Vec<Link>) -> Mem<Vec<Keyed>>
    ensures { IfOk result (λ all. all.items ≡ map keyed_of found.items) }
{
    let mut all = Vec::new(alloc);
    for link in found {
        all.push(with_text(alloc, link)?)?;
    }
    Ok(all)
}

/// The link with what is printed for its reading.
fn with_text(alloc: Global, link: Link) -> Mem<Keyed>
    ensures { IfOk result (λ keyed. keyed ≡ keyed_of link) }
{
    let printed = print_reading(alloc, &link.reading)?;
    Ok(Keyed { printed, link })
}

/// What is printed for a reading.
fn print_reading(alloc: Global, reading: &Reading) -> Mem<Txt>
    ensures { IfOk result (λ text. text ≡ reading_text reading.now) }
{
    match reading {
        Reading::Word(entry) => print_in_braces(alloc, entry),
        Reading::Raw(text) => Ok(Txt::from_str(alloc, text.as_str())?),
    }
}

/// The entry as a dictionary line in braces.
fn print_in_braces(alloc: Global, entry: &Entry) -> Mem<Txt>
    ensures { IfOk result (λ text. text ≡ reading_text (Word entry.now)) }
{
    let line = print_delaf(alloc, entry)?;
    Ok(in_braces(alloc, line.as_str())?)
}

/// The text in braces.
fn in_braces(alloc: Global, line: &str) -> Result<Txt, AllocError>
    ensures { IfOk result (λ text. text ≡ OPENING_BRACE ∷ (line.now ++ CLOSING_BRACE ∷ [])) }
{
    let mut text = String::new(alloc);
    text.push('{')?;
    text.push_str(line)?;
    text.push('}')?;
    Ok(Txt::new(text))
}

/// Puts the links in order. Takes no memory.
fn sort(links: &mut Vec<Keyed>)
    ensures same { IsPermutation links.old.items links.new.items }
    ensures in_order { IsSorted keyed_cmp links.new.items }
{
    links.sort_unstable_by(|a, b| compare(a, b));
}

/// Compares two links by their states and by what is printed for their readings.
fn compare(a: &Keyed, b: &Keyed) -> Ordering
    ensures { result ≡ keyed_cmp a.now b.now }
{
    let by_from = a.link.from.cmp(&b.link.from);
    if by_from.is_ne() {
        return by_from;
    }
    let by_to = a.link.to.cmp(&b.link.to);
    if by_to.is_ne() {
        return by_to;
    }
    a.printed.cmp(&b.printed)
}

/// Puts the links last, without what was printed for them.
fn put_links(links: &mut Vec<Link>, found: Vec<Keyed>) -> Mem<()>
    ensures { OnOk result (links.new.items ≡ links.old.items ++ map link_in found.items) }
{
    for keyed in found {
        let Keyed { printed: _, link } = keyed;
        links.push(link)?;
    }
    Ok(())
}
