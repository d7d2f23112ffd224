//! What is read from one token on: its own entries or text, and the entries of the spans that it
//! begins.

ghost use Rattle.std.specs.Prelude.{◌≡◌, ◌++◌, ◌+◌, ◌≤◌, ◌<◌, List, IfOk, OnOk, length, map};
ghost use Rattle.ux_alphabet.specs.Letters.{Letters};
ghost use Rattle.ux_lexical_tables.specs.Belonging.{Belongs};
ghost use Rattle.ux_text_automaton.specs.Candidates.{AreLinksFrom, ArePut, AreStates, LieWithin, own_links, raw_links, raw_link, span_links, word_link};
ghost use Rattle.ux_text_automaton.specs.Runs.{IsRun, state_at};

use crate::keyed::put_in_order;
use crate::run::Run;
use crate::states::state_before;
use std::alloc::Global;
use ux_base::{Mem, Txt};
use ux_dela::Entry;
use ux_lexical_tables::LexicalTables;
use ux_sentence::{Link, Reading};
use ux_tokens::{Kind, Text};

/// Puts the links that begin at a place of the run last, in order. Takes time in these links, and
/// what sorting them takes.
pub(crate) fn put_links_from(
    links: &mut Vec<Link>,
    alloc: Global,
    text: &Text,
    tables: &LexicalTables,
    run: Run,
    states: &[u64],
    place: usize,
) -> Mem<()>
    requires belongs { (alphabet : Letters) × Belongs alphabet text.now tables.now }
    requires run { IsRun text.now run }
    requires states { AreStates text.now run.first run.end states.now }
    requires from { run.first ≤ place }
    requires to { place < run.end }
    ensures { OnOk result
        (ArePut text.now tables.now run.first place links.old.items links.new.items) }
{
    let found = links_from(alloc, text, tables, run, states, place)?;
    put_in_order(links, alloc, found)?;
    Ok(())
}

/// The links that begin at a place of the run, not in order.
fn links_from(
    alloc: Global,
    text: &Text,
    tables: &LexicalTables,
    run: Run,
    states: &[u64],
    place: usize,
) -> Mem<Vec<Link>>
    requires belongs { (alphabet : Letters) × Belongs alphabet text.now tables.now }
    requires run { IsRun text.now run }
    requires states { AreStates text.now run.first run.end states.now }
    requires from { run.first ≤ place }
    requires to { place < run.end }
    ensures { IfOk result (λ found.
        AreLinksFrom text.now tables.now run.first place found.items) }
{
    let from = state_before(text, states, run, place);
    let to = state_before(text, states, run, place + 1);
    let kind = text.kind(place);
    let mut found = own(
        alloc,
        kind,
        text.token(place),
        tables.simple(place),
        from,
        to,
    )?;
    put_spans(
        &mut found,
        text,
        tables.compounds(place),
        run,
        states,
        place,
    )?;
    Ok(found)
}

/// The links of a token alone: those of its simple entries, or of its text where it has none.
fn own(
    alloc: Global,
    kind: Kind,
    token: &str,
    simple: &[Entry],
    from: u64,
    to: u64,
) -> Mem<Vec<Link>>
    ensures { IfOk result (λ found.
        found.items ≡ own_links from to kind token.now simple.now) }
{
    if simple.is_empty() {
        return raw(alloc, kind, token, from, to);
    }
    entries(alloc, simple, from, to)
}

/// The link of a token's text, if the token may stand for itself.
fn raw(alloc: Global, kind: Kind, token: &str, from: u64, to: u64) -> Mem<Vec<Link>>
    ensures { IfOk result (λ found. found.items ≡ raw_links from to kind token.now) }
{
    let mut found = Vec::new(alloc);
    match kind {
        Kind::Word | Kind::Other => found.push(link_of_text(alloc, token, from, to)?)?,
        Kind::Space | Kind::Sentence | Kind::Stop | Kind::Tag => {}
    }
    Ok(found)
}

/// The link of a text.
fn link_of_text(alloc: Global, token: &str, from: u64, to: u64) -> Mem<Link>
    ensures { IfOk result (λ link. link ≡ raw_link from to token.now) }
{
    let reading = Reading::Raw(Txt::from_str(alloc, token)?);
    Ok(Link { from, to, reading })
}

/// The links of simple entries.
fn entries(alloc: Global, simple: &[Entry], from: u64, to: u64) -> Mem<Vec<Link>>
    ensures { IfOk result (λ found. found.items ≡ map (word_link from to) simple.now) }
{
    let mut found = Vec::new(alloc);
    for entry in simple {
        found.push(link_of_entry(entry, from, to)?)?;
    }
    Ok(found)
}

/// The link of an entry.
fn link_of_entry(entry: &Entry, from: u64, to: u64) -> Mem<Link>
    ensures { IfOk result (λ link. link ≡ word_link from to entry.now) }
{
    let reading = Reading::Word(entry.copy()?);
    Ok(Link { from, to, reading })
}

/// Puts the links of the compound entries of a row last.
fn put_spans(
    found: &mut Vec<Link>,
    text: &Text,
    row: &[(usize, Entry)],
    run: Run,
    states: &[u64],
    place: usize,
) -> Mem<()>
    requires states { AreStates text.now run.first run.end states.now }
    requires from { run.first ≤ place }
    requires to { place ≤ run.end }
    requires within { LieWithin place run.end row.now }
    ensures { OnOk result (found.new.items ≡ found.old.items
        ++ span_links text.now run.first (state_at text.now run.first place) row.now) }
{
    let from = state_before(text, states, run, place);
    for (last, entry) in row {
        let to = state_before(text, states, run, *last + 1);
        found.push(link_of_entry(entry, from, to)?)?;
    }
    Ok(())
}
