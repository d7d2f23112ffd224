//! The least text that leads from the first of several nodes to a wanted one.
//!
//! Texts are compared by bytes, so the least text of a way isn't made of a least beginning: `a` is
//! less than `ab`, but `ac` isn't less than `abc`. It is made of a least end. So the nodes are taken
//! in an order in which links lead to nodes that were taken, each node once, and the least text from
//! each is kept.

ghost use Rattle.std.specs.Prelude.{◌≡◌, ◌++◌, ◌<◌, ℕ, List, None, IfOk, OnOk, get_or, length, map, option_copied, slice_set};
ghost use Rattle.ux_subsets.specs.Rows.{row_at};
ghost use Rattle.ux_inflect.specs.declared.exploring.Link.{Link};
ghost use Rattle.ux_inflect.specs.Ways.{along_link, ends_rows, lists_in, if_wanted_text, least_in, lesser_of, lesser_option, lists_of, AreFalling, AreReady, AreTurns, IsBest, IsTaken};

use crate::exploring::Link;
use crate::survey::{is_marked, number_of};
use std::alloc::Global;
use ux_base::{Lst, Mem, Txt};
use ux_digraph::components;
use ux_subsets::rows::{empty_rows, put, row_of};

/// The least text of a way from node 0 to a wanted node, if there is one. Takes time linear in the
/// links, but for the texts that it joins and compares.
pub(crate) fn least_text(alloc: Global, links: &[Vec<Link>], wanted: &[bool]) -> Mem<Option<Txt>>
    requires falling { AreFalling (lists_of links.now) }
    requires some { 0 < length links.now }
    ensures { IfOk result (IsBest (lists_of links.now) wanted.now 0) }
{
    let turns = turns_of(alloc, links)?;
    let mut best = nothing_yet(alloc, links.len())?;
    for turn in 0..links.len() {
        take_turn(alloc, links, wanted, row_of(&turns, turn), &mut best)?;
    }
    let text = copy_at(alloc, &best, 0)?;
    Ok(text)
}

/// Nothing for so many nodes.
fn nothing_yet(alloc: Global, count: usize) -> Mem<Vec<Option<Txt>>>
    ensures { IfOk result (λ best. length best.items ≡ count) }
{
    let mut best = Vec::with_capacity(alloc, count)?;
    for node in 0..count {
        best.push(None)?;
    }
    Ok(best)
}

/// The nodes of each turn: links lead to nodes of earlier turns.
fn turns_of(alloc: Global, links: &[Vec<Link>]) -> Mem<Vec<Vec<usize>>>
    requires { AreFalling (lists_of links.now) }
    ensures { IfOk result (λ turns. AreTurns (lists_of links.now) (lists_in turns.items)) }
{
    let rows = rows_of_links(alloc, links)?;
    let numbers = components(alloc, &rows)?;
    let mut turns = empty_rows(alloc, links.len())?;
    for node in 0..links.len() {
        put(&mut turns, number_of(&numbers, node), node)?;
    }
    Ok(turns)
}

/// Where the links of each node lead.
#[tactic(auto, using(crate::proofs::TurnsLemmas::ends_more))]
fn rows_of_links(alloc: Global, links: &[Vec<Link>]) -> Mem<Vec<Lst<usize>>>
    ensures { IfOk result (λ rows. rows.items ≡ ends_rows (lists_of links.now)) }
{
    let mut rows = Vec::with_capacity(alloc, links.len())?;
    for row in links {
        let ends = ends_of(alloc, row)?;
        rows.push(Lst::new(ends))?;
    }
    Ok(rows)
}

/// Where the links lead.
#[tactic(auto, using(crate::proofs::ListLemmas::map_more))]
fn ends_of(alloc: Global, row: &[Link]) -> Mem<Vec<usize>>
    ensures { IfOk result (λ ends. ends.items ≡ map (λ (link : Link). link.to) row.now) }
{
    let mut ends = Vec::with_capacity(alloc, row.len())?;
    for link in row {
        ends.push(link.to)?;
    }
    Ok(ends)
}

/// Finds the least texts from the nodes of a turn.
fn take_turn(
    alloc: Global,
    links: &[Vec<Link>],
    wanted: &[bool],
    nodes: &[usize],
    best: &mut Vec<Option<Txt>>,
) -> Mem<()>
    requires { AreReady (lists_of links.now) wanted.now nodes.now best.now.items }
    ensures { OnOk result (IsTaken (lists_of links.now) wanted.now nodes.now
        best.old.items best.new.items) }
{
    for node in nodes {
        let text = text_from(alloc, row_of(links, *node), is_marked(wanted, *node), best)?;
        keep(best, *node, text);
    }
    Ok(())
}

/// Keeps the text of a node.
fn keep(best: &mut Vec<Option<Txt>>, node: usize, text: Option<Txt>)
    requires { node < length best.old.items }
    ensures { best.new.items ≡ slice_set best.old.items node text }
{
    best[node] = text;
}

/// The least text from a node: nothing, where it is wanted itself, or the least one along a link.
#[tactic(auto, using(crate::proofs::WaysLemmas::least_more))]
fn text_from(alloc: Global, row: &[Link], is_wanted: bool, best: &[Option<Txt>]) -> Mem<Option<Txt>>
    ensures { IfOk result (λ least.
        least ≡ least_in best.now (if_wanted_text is_wanted) row.now) }
{
    let mut least = if_wanted(alloc, is_wanted);
    for link in row {
        let text = text_along(alloc, link, best)?;
        least = lesser(least, text);
    }
    Ok(least)
}

/// The empty text, if it is wanted.
fn if_wanted(alloc: Global, is_wanted: bool) -> Option<Txt>
    ensures { result ≡ if_wanted_text is_wanted }
{
    if is_wanted {
        return Some(Txt::new(String::new(alloc)));
    }
    None
}

/// The text of the link and then the least one from its end, if there is one.
fn text_along(alloc: Global, link: &Link, best: &[Option<Txt>]) -> Mem<Option<Txt>>
    ensures { IfOk result (λ text. text ≡ along_link best.now link.now) }
{
    match text_at(best, link.to) {
        Some(rest) => {
            let text = joined(alloc, link.text.as_str(), rest)?;
            Ok(Some(text))
        },
        None => Ok(None),
    }
}

/// The text of a node, lent.
fn text_at(best: &[Option<Txt>], node: usize) -> Option<&str>
    ensures { option_copied result ≡ get_or best.now node None }
{
    match best.get(node) {
        Some(Some(text)) => Some(text.as_str()),
        Some(None) | None => None,
    }
}

/// One text and then another.
fn joined(alloc: Global, text: &str, rest: &str) -> Mem<Txt>
    ensures { IfOk result (λ all. all ≡ text.now ++ rest.now) }
{
    let mut all = String::from_str(alloc, text)?;
    all.push_str(rest)?;
    Ok(Txt::new(all))
}

/// The lesser of two texts, of which each may be missing.
fn lesser(text: Option<Txt>, other: Option<Txt>) -> Option<Txt>
    ensures { result ≡ lesser_option text other }
{
    match (text, other) {
        (Some(text), Some(other)) => Some(lesser_text(text, other)),
        (Some(text), None) => Some(text),
        (None, other) => other,
    }
}

/// The lesser of two texts.
fn lesser_text(text: Txt, other: Txt) -> Txt
    ensures { result ≡ lesser_of text other }
{
    if other < text {
        return other;
    }
    text
}

/// A copy of the text of a node.
fn copy_at(alloc: Global, best: &[Option<Txt>], node: usize) -> Mem<Option<Txt>>
    ensures { IfOk result (λ text. text ≡ get_or best.now node None) }
{
    match text_at(best, node) {
        Some(text) => {
            let text = Txt::from_str(alloc, text)?;
            Ok(Some(text))
        },
        None => Ok(None),
    }
}
