//! The forms that fit a text in which several letters fit some characters.
//!
//! From the root on, level by level, stand the states to which the characters so far lead. From the
//! last level back it is told of each state by which links forms go on from it that fit the rest of
//! the text: a link has a letter, and is in front of one of the next state. So each state of a level
//! is met once on the way there and once on the way back, no link is made that leads to no form, and
//! the forms, at last read off link by link, share what they end in. The number of links is at most that
//! of the letters of the forms.

ghost use Rattle.std.specs.Prelude.{◌≡◌, ◌≢◌, ◌++◌, ◌-◌, ◌<◌, ℕ, IfOk, OnOk, length};
ghost use Rattle.ux_dawg.specs.Building.{bare};
ghost use Rattle.ux_dawg.specs.Paths.{MakeAutomaton};
ghost use Rattle.ux_dict.specs.Forms.{IsChosen};
ghost use Rattle.ux_image_lists.specs.Sizes.{forms_of};
ghost use Rattle.ux_image_look_ups.specs.Spelling.{at_end, form_at, link_at, links_of, links_to, row_links, table, AreLevels, PutsLinks, Spells, Tells, TellsEnds, TellsRow};
ghost use Rattle.ux_image_look_ups.specs.Ways.{FitsText};

use crate::places::Place;
use crate::steps::Taken;
use std::alloc::Global;
use std::collections::BTreeMap;
use ux_alphabet::Alphabet;
use ux_base::{Lst, Mem};
use ux_dawg::{Edge, Form, States};

/// How a form goes on.
#[derive(Clone, Copy, Drop)]
pub(crate) enum Link {
    /// It ends here, with this number of a list.
    End {
        code: u32,
    },
    /// By a letter, and then by one of the links of a state.
    Letter {
        letter: char,
        state: usize,
        place: usize,
    },
}

/// The links of states.
type Links = BTreeMap<usize, Vec<Link>>;

/// The forms that fit the text of these letters, in order.
pub(crate) fn spelled(
    alloc: Global,
    states: &States,
    text: &[char],
    alphabet: &Alphabet,
) -> Mem<Vec<Form>>
    requires { MakeAutomaton states.now }
    ensures { IfOk result (λ found.
        IsChosen (FitsText alphabet.now text.now) (forms_of states.now) found.items) }
{
    let levels = levels_of(alloc, states, text, alphabet)?;
    let rows = rows_of(alloc, states, text, alphabet, &levels)?;
    read_all(alloc, &rows, states.len() - 1)
}

/// The states to which the text leads character by character, from the root on.
fn levels_of(alloc: Global, states: &States, text: &[char], alphabet: &Alphabet) -> Mem<Vec<Place>>
    requires { MakeAutomaton states.now }
    ensures { IfOk result (λ levels. AreLevels states.now alphabet.now text.now levels.items) }
{
    let mut levels = Vec::new(alloc);
    levels.push(Place::of(alloc, states.len() - 1))?;
    for place in 0..text.len() {
        let taken = Taken::of(text[place], alphabet);
        let next = levels[place].next(alloc, states, &taken)?;
        levels.push(next)?;
    }
    Ok(levels)
}

/// The links of the states of each level, the last level first.
fn rows_of(
    alloc: Global,
    states: &States,
    text: &[char],
    alphabet: &Alphabet,
    levels: &[Place],
) -> Mem<Vec<Links>>
    requires automaton { MakeAutomaton states.now }
    requires levels { AreLevels states.now alphabet.now text.now levels.now }
    ensures { IfOk result (λ rows.
        Tells states.now alphabet.now text.now levels.now 0 rows.items) }
{
    let mut rows = Vec::new(alloc);
    let mut left = text.len();
    rows.push(ends_of(alloc, states, &levels[left])?)?;
    while left > 0 {
        left -= 1;
        let taken = Taken::of(text[left], alphabet);
        let row = row_of(alloc, states, &levels[left], &taken, &rows[rows.len() - 1])?;
        rows.push(row)?;
    }
    Ok(rows)
}

/// The links of states in which a form ends.
fn ends_of(alloc: Global, states: &States, level: &Place) -> Mem<Links>
    ensures { IfOk result (TellsEnds states.now level.now) }
{
    let mut row = BTreeMap::new(alloc);
    for state in level.list(alloc)? {
        put_links(&mut row, state, end_links(alloc, states.code(state))?)?;
    }
    Ok(row)
}

/// The link of a state in which a form ends, if one does.
fn end_links(alloc: Global, code: Option<u32>) -> Mem<Vec<Link>>
    ensures { IfOk result (λ links. links.items ≡ at_end code) }
{
    let mut links = Vec::new(alloc);
    if let Some(code) = code {
        links.push(Link::End { code })?;
    }
    Ok(links)
}

/// The links of the states of a level by the character, behind which those of the next level stand.
fn row_of(
    alloc: Global,
    states: &States,
    level: &Place,
    taken: &Taken<'_>,
    behind: &Links,
) -> Mem<Links>
    ensures { IfOk result (TellsRow states.now taken.now behind.now level.now) }
{
    let mut row = BTreeMap::new(alloc);
    for state in level.list(alloc)? {
        put_links(
            &mut row,
            state,
            links_from(alloc, states.edges(state), taken, behind)?,
        )?;
    }
    Ok(row)
}

/// Keeps the links of the state.
fn put_links(row: &mut Links, state: usize, links: Vec<Link>) -> Mem<()>
    ensures here { OnOk result (links_of row.new state ≡ links.items) }
    ensures others { OnOk result ((other : ℕ) → other ≢ state →
        links_of row.new other ≡ links_of row.old other) }
{
    row.insert(state, links)?;
    Ok(())
}

/// The links by the edges whose letters fit the character, each in front of all of its target.
fn links_from(alloc: Global, edges: &[Edge], taken: &Taken<'_>, behind: &Links) -> Mem<Vec<Link>>
    ensures { IfOk result (λ links. Spells taken.now behind.now edges.now links.items) }
{
    let mut links = Vec::new(alloc);
    for edge in edges {
        push_behind(*edge, taken, behind, &mut links)?;
    }
    Ok(links)
}

/// Puts the links by the edge last, if its letter fits the character.
fn push_behind(edge: Edge, taken: &Taken<'_>, behind: &Links, links: &mut Vec<Link>) -> Mem<()>
    ensures { OnOk result (PutsLinks taken.now behind.now edge links.old.items links.new.items) }
{
    if taken.fits(edge.letter) {
        let state = edge.target as usize;
        push_links(edge.letter, state, count_of(behind, state), links)?;
    }
    Ok(())
}

/// Puts links last by the letter in front of so many of the state.
fn push_links(letter: char, state: usize, many: usize, links: &mut Vec<Link>) -> Mem<()>
    ensures { OnOk result (links.new.items ≡ links.old.items ++ table (links_to letter state) many) }
{
    for place in 0..many {
        links.push(Link::Letter {
            letter,
            state,
            place,
        })?;
    }
    Ok(())
}

/// How many links the state has.
fn count_of(row: &Links, state: usize) -> usize
    ensures { result ≡ length (links_of row.now state) }
{
    match row.get(&state) {
        Some(links) => links.len(),
        None => 0,
    }
}

/// The forms of the state by the links of the last row.
fn read_all(alloc: Global, rows: &[Links], state: usize) -> Mem<Vec<Form>>
    requires { 0 < length rows.now }
    ensures { IfOk result (λ found. found.items
        ≡ table (form_at (length rows.now) rows.now state)
        (length (row_links rows.now (length rows.now - 1) state))) }
{
    let mut found = Vec::new(alloc);
    for place in 0..count_of(&rows[rows.len() - 1], state) {
        found.push(read(alloc, rows, state, place)?)?;
    }
    Ok(found)
}

/// The form by this link of the state in the last row.
fn read(alloc: Global, rows: &[Links], state: usize, place: usize) -> Mem<Form>
    ensures { IfOk result (λ form. form ≡ form_at (length rows.now) rows.now state place) }
{
    let mut letters = Vec::new(alloc);
    let mut left = rows.len();
    let mut state = state;
    let mut place = place;
    // The first row has ends alone, so that the code is taken from one.
    let mut code = 0;
    while left > 0 {
        left -= 1;
        match link_in(&rows[left], state, place) {
            Link::End { code: end } => {
                code = end;
                left = 0;
            }
            Link::Letter {
                letter,
                state: target,
                place: behind,
            } => {
                letters.push(letter)?;
                state = target;
                place = behind;
            }
        }
    }
    Ok(Form {
        letters: Lst::new(letters),
        code,
    })
}

/// The link of the state at the place.
fn link_in(row: &Links, state: usize, place: usize) -> Link
    ensures { result ≡ link_at (links_of row.now state) place }
{
    match row.get(&state) {
        Some(links) => match links.get(place) {
            Some(link) => *link,
            None => Link::End { code: 0 },
        },
        None => Link::End { code: 0 },
    }
}
