//! Where walks from a position end, as a walk lists them and as a walker finds them, and whether the
//! walker holds the position back from then on.
//!
//! What is found in a text is shown by rows of `unitex_rows`; whether a position is held back shows
//! in no command, nor a walk that takes no token. The text is `The`, a space, `cat`, a comma, a
//! space, `x`. A row has the main graph of a compiled grammar and its tags behind tag 0.

ghost use Rattle.std.specs.Prelude.{◌≡◌, ◌<◌, length};
ghost use Rattle.ux_mask_table.specs.NetMasks.{AreNetMasks};
ghost use Rattle.ux_lexical_tables.specs.Belonging.{Belongs};
ghost use Rattle.ux_mask_table.specs.MaskedTexts.{HasTable};

use crate::comparing::compare;
use crate::net::net_of;
use std::alloc::{AllocError, Global};
use std::marker::Brand;
use std::sync::ledger::{Blank, Ledger};
use std::test::Fail;
use ux_alphabet::Alphabet;
use ux_apply::{Priority, apply};
use ux_base::{Lst, Mem, Steps};
use ux_dict::ListLexicon;
use ux_lexical_tables::LexicalTables;
use ux_mask_table::{MaskedText, NetMasks};
use ux_net::Net;
use ux_outputs::Event;
use ux_tokens::Text;
use ux_walk::{NoContexts, walk};
use ux_walker::Walker;

/// The positions at which walks end, those that a walker finds, and whether a walk may begin from then
/// on.
type Ends = (Vec<usize>, Vec<usize>, bool);

/// The positions at which walks end.
fn ends(alloc: Global, found: &[(usize, Lst<Event>)]) -> Result<Vec<usize>, AllocError> {
    let mut ends = Vec::new(alloc);
    for (end, _) in found {
        ends.push(*end)?;
    }
    Ok(ends)
}

/// The ends of the walks from a position, in a text with what its masks accept.
fn listed(alloc: Global, masked: &MaskedText, start: usize) -> Mem<Vec<usize>>
    requires { HasTable masked.now }
{
    masked.net.is_measured();
    if start < masked.text.len() {
        if masked.net.is_plain() {
            let found = walk(alloc, masked, &NoContexts, start)?;
            return Ok(ends(alloc, &found)?);
        }
    }
    Ok(Vec::new(alloc))
}

/// The ends that a walker finds from a position, and whether a walk may begin there from then on.
fn found_by(alloc: Global, walker: &mut Walker, start: usize) -> Mem<(Vec<usize>, bool)>
    requires { start < length walker.old.tokens }
{
    let mut ends = Vec::new(alloc);
    walker.ends_from(alloc, start, &mut ends)?;
    Ok((ends, walker.may_begin(start)))
}

/// The same, by a new walker.
fn way_in(alloc: Global, masked: &MaskedText, start: usize) -> Mem<(Vec<usize>, bool)>
    requires { HasTable masked.now }
{
    if start < masked.text.len() {
        if masked.net.is_plain() {
            let mut walker = Walker::of(alloc, masked)?;
            return found_by(alloc, &mut walker, start);
        }
    }
    Ok((Vec::new(alloc), true))
}

/// The ends from a position, by walks and by a walker.
fn told(alloc: Global, masked: &MaskedText, start: usize) -> Result<Ends, Fail>
    requires { HasTable masked.now }
{
    let ends = listed(alloc, masked, start)?;
    let (found, may_begin) = way_in(alloc, masked, start)?;
    Ok((ends, found, may_begin))
}

/// The same, with what applies to the text, and with no step taken before.
fn told_by<L: Ledger>(
    alloc: Global,
    net: &Net,
    text: &Text,
    alphabet: &Alphabet,
    applied: &LexicalTables,
    start: usize,
    blank: Blank,
) -> Result<Ends, Fail>
    requires name { blank.name ≡ L.name }
    requires parts { blank.parts ≡ L.parts }
    requires some { 0 < blank.parts }
    requires belongs { Belongs alphabet.now text.now applied.now }
{
    let mut steps = Steps::<L>::new(blank);
    let masks = NetMasks::of(alloc, net)?;
    told_with(
        alloc, net, &masks, text, alphabet, applied, start, &mut steps,
    )
}

/// The same, by the masks of the net.
fn told_with<L: Ledger>(
    alloc: Global,
    net: &Net,
    masks: &NetMasks,
    text: &Text,
    alphabet: &Alphabet,
    applied: &LexicalTables,
    start: usize,
    steps: &mut Steps<L>,
) -> Result<Ends, Fail>
    requires masks { AreNetMasks net.now masks.now }
    requires belongs { Belongs alphabet.now text.now applied.now }
{
    let masked = MaskedText::of(alloc, net, masks, text, alphabet, applied, steps)?;
    told(alloc, &masked, start)
}

/// The same, without dictionaries.
fn told_in(
    alloc: Global,
    net: &Net,
    text: &Text,
    alphabet: &Alphabet,
    start: usize,
) -> Result<Ends, Fail> {
    let dics: [(Priority, ListLexicon); 0] = [];
    let applied = apply(alloc, text, alphabet, &dics)?;
    told_by::<Brand>(alloc, net, text, alphabet, &applied, start, Blank::new(1))
}

/// The ends of a row, in the text.
fn ends_of(alloc: Global, grammar: &str, start: usize) -> Result<Ends, Fail> {
    let alphabet = Alphabet::read(alloc, "Tt\nHh\nEe\nNn\nCc\nAa\n")?;
    let text = Text::read(alloc, String::from_str(alloc, "The  cat, x")?, &alphabet)?;
    let net = net_of(alloc, grammar)?;
    told_in(alloc, &net, &text, &alphabet, start)
}

/// A name, the text of the grammar, the position, the ends of walks, those that a walker finds, and
/// whether a walk may begin there from then on.
type Row = (
    &'static str,
    &'static str,
    usize,
    &'static [usize],
    &'static [usize],
    bool,
);

#[test]
fn walks_and_walkers_find_all_ends(rt: HostRuntime) -> Result<(), Fail> {
    const ROWS: &[Row] = &[
        (
            "a literal",
            "0000000001\n-1 A\n: 1 1 \nt \nf \n%<E>\n%the\nf\n",
            0,
            &[1],
            &[1],
            true,
        ),
        (
            "two that begin alike",
            "0000000001\n-1 A\n: 1 1 \nt 2 2 \nt \nf \n%<E>\n%the\n%cat\nf\n",
            0,
            &[1, 3],
            &[1, 3],
            true,
        ),
        (
            "the last token",
            "0000000001\n-1 A\n: 1 1 \nt \nf \n%<E>\n%x\nf\n",
            5,
            &[6],
            &[6],
            true,
        ),
        (
            "no first token",
            "0000000001\n-1 A\n: 1 1 \n: 2 2 \nt \nf \n%<E>\n%dog\n%cat\nf\n",
            0,
            &[],
            &[],
            false,
        ),
        (
            "no second token",
            "0000000001\n-1 A\n: 1 1 \n: 2 2 \nt \nf \n%<E>\n%the\n%dog\nf\n",
            0,
            &[],
            &[],
            false,
        ),
        (
            "glue after a literal",
            "0000000001\n-1 A\n: 1 1 \n: 2 2 \nt \nf \n%<E>\n%cat\n%#\nf\n",
            2,
            &[3],
            &[3],
            true,
        ),
        (
            "a space after a literal",
            "0000000001\n-1 A\n: 1 1 \n: 2 2 \nt \nf \n%<E>\n%the\n%\" \"\nf\n",
            0,
            &[2],
            &[2],
            true,
        ),
        (
            "glue alone",
            "0000000001\n-1 A\n: 1 1 \nt \nf \n%<E>\n%#\nf\n",
            0,
            &[0],
            &[],
            false,
        ),
    ];
    for row in ROWS {
        let (walked, found, may_begin) = ends_of(rt.alloc(), row.1, row.2)?;
        compare(
            &rt,
            row.0,
            (walked.as_slice(), found.as_slice(), may_begin),
            (row.3, row.4, row.5),
        );
    }
    Ok(())
}
