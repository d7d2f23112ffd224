//! Links in the order in which they are printed.

ghost use Rattle.std.specs.Prelude.{◌≡◌, ◌↔◌, AllPairs, Contains};
ghost use Rattle.std.specs.List.Sorted.{IsPermutation, IsSorted};
ghost use Rattle.ux_subsets.specs.declared.automaton.Link.{Link as LinkRecord};
ghost use Rattle.ux_elag.specs.Numbers as specs;
ghost use Rattle.ux_elag.specs.Numbers.{ComesBefore, link_cmp};

use std::cmp::Ordering;
use ux_base::Txt;
use ux_subsets::Link;

/// The links in the order in which they are printed, by the texts of their readings, each once.
/// Texts are compared only of links between the same two states.
pub(crate) fn in_text_order(mut links: Vec<Link>, texts: &[Txt]) -> Vec<Link>
    ensures rising { AllPairs (ComesBefore texts.now) result.items }
    ensures same { (link : LinkRecord) →
        Contains result.items link ↔ Contains links.items link }
{
    sort(&mut links, texts);
    links.dedup();
    links
}

/// Sorts the links. Takes no memory.
fn sort(links: &mut Vec<Link>, texts: &[Txt])
    ensures same { IsPermutation links.old.items links.new.items }
    ensures in_order { IsSorted (link_cmp texts.now) links.new.items }
{
    links.sort_unstable_by(|link, other| compare(texts, link, other));
}

/// Compares two links by their states, by the texts of their readings, and last by the numbers of
/// these.
fn compare(texts: &[Txt], link: &Link, other: &Link) -> Ordering
    ensures { result ≡ link_cmp texts.now link.now other.now }
{
    let by_from = link.from.cmp(&other.from);
    if by_from.is_ne() {
        return by_from;
    }
    let by_to = link.to.cmp(&other.to);
    if by_to.is_ne() {
        return by_to;
    }
    let by_text = text_with(texts, link.reading).cmp(text_with(texts, other.reading));
    if by_text.is_ne() {
        return by_text;
    }
    link.reading.cmp(&other.reading)
}

/// The text with the number, and no sign where there is none.
fn text_with(texts: &[Txt], number: u32) -> &str
    ensures { result.now ≡ specs.text_with texts.now number }
{
    match texts.get(number as usize) {
        Some(text) => text.as_str(),
        None => "",
    }
}
