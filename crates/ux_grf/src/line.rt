//! The lines of a content, and where the first fault of a content stands.
//!
//! `specs/Lines.antt` has the definitions. A fault is told by what stands from it on, so that no
//! place is counted but that of a refusal.

ghost use Rattle.std.specs.Prelude.{◌≡◌, ◌≢◌, ◌<◌, ◌≤◌, ◌∷◌, ◌++◌, [], true, length, slice_index, MatchOption, IfOk, IfErr, IfSome, IfNone, OnOk};
ghost use Rattle.ux_grf.specs.Items.{PLUS, EndsLine, Reads, with_first};
ghost use Rattle.ux_grf.specs.Lines.{IsLine, AreLines, is_marked, IsMarkedLine, own_text, after_line, line_end, or_empty, IsFirstEnd, IsLastRest};
ghost use Rattle.ux_grf.specs.Content.{StopsItems, StopsMark, StopsLine, StopsLines};

use crate::graph::GraphKind;
use crate::item::Item;
use crate::marked::{begins_with_mark, marked, skip_blanks};
use crate::start::{Start, read_start};
use crate::words::{after, before, from};
use std::alloc::{AllocError, AllocFailed, Global};
use ux_base::Lst;

/// Why a content isn't read.
#[derive(Clone, Copy)]
pub enum Fault<'a> {
    /// It is bad, and this stands from the first fault on.
    At(&'a str),
    /// Memory ran out.
    NoRoom,
}

impl<'a> From<AllocError> for Fault<'a> {
    ghost use Rattle.std.specs.Prelude.{◌≡◌};
    ghost use Rattle.ux_grf.specs.declared.line.Fault.TheVariants.{NoRoom};

    ghost from_gives = { λ _ f. f ≡ NoRoom };

    fn from(_error: AllocError) -> Fault<'a> {
        Fault::NoRoom
    }
}

impl<'a, T: Drop> From<AllocFailed<T>> for Fault<'a> {
    ghost use Rattle.std.specs.Prelude.{◌≡◌};
    ghost use Rattle.ux_grf.specs.declared.line.Fault.TheVariants.{NoRoom};

    ghost from_gives = { λ _ f. f ≡ NoRoom };

    fn from(_error: AllocFailed<T>) -> Fault<'a> {
        Fault::NoRoom
    }
}

/// The items of a line.
#[derive(Drop)]
pub struct Line<'a> {
    /// The items.
    pub items: Vec<Item>,
    /// What stands after the line.
    pub after: &'a str,
}

/// The lines of a content.
#[derive(Drop)]
pub struct Parts<'a> {
    /// The lines.
    pub lines: Vec<Lst<Item>>,
    /// What stands after the first free `/`.
    pub output: &'a str,
}

/// The lines of a content, and its output.
pub fn read_lines<'a>(alloc: Global, kind: GraphKind, text: &'a str) -> Result<Parts<'a>, Fault<'a>>
    ensures lines { IfOk result (λ parts. AreLines kind text.now parts.lines.items parts.output.now) }
    ensures bad { IfErr result (StopsLines kind text.now) }
{
    let mut lines = Vec::new(alloc);
    let mut rest = text;
    loop {
        let line = read_line(alloc, kind, rest)?;
        lines.push(fitted(line.items))?;
        match strip_sign(line.after, b'+') {
            Some(next) => rest = next,
            None => {
                let output = last_output(line.after);
                return Ok(Parts { lines, output });
            },
        }
    }
}

/// The items, with no room to spare: most lines have one, and a graph may have many lines.
fn fitted(items: Vec<Item>) -> Lst<Item>
    ensures { result ≡ items.items }
{
    let mut items = items;
    items.shrink_to_fit();
    Lst::new(items)
}

/// What stands after the sign, where the text begins with it.
fn strip_sign(text: &str, sign: u8) -> Option<&str>
    requires some { 0 < sign }
    requires ascii { sign < 128 }
    ensures none { IfNone result (slice_index text.now 0 ≢ sign) }
    ensures some { IfSome result (λ rest. text.now ≡ sign ∷ rest.now) }
{
    if text.as_bytes().first() == Some(&sign) {
        Some(after(text, 0))
    } else {
        None
    }
}

/// The output, from what stands after the last line.
fn last_output(text: &str) -> &str
    requires ends { EndsLine text.now }
    requires last { slice_index text.now 0 ≢ PLUS }
    ensures { IsLastRest text.now result.now }
{
    match strip_sign(text, b'/') {
        Some(output) => output,
        None => "",
    }
}

/// The first line of the text.
fn read_line<'a>(alloc: Global, kind: GraphKind, text: &'a str) -> Result<Line<'a>, Fault<'a>>
    ensures line { IfOk result (λ line. IsLine kind text.now line.items.items line.after.now) }
    ensures ends { IfOk result (λ line. EndsLine line.after.now) }
    ensures shorter { IfOk result (λ line. length line.after.now ≤ length text.now) }
    ensures bad { IfErr result (StopsLine kind text.now) }
{
    let front = skip_blanks(text);
    if begins_with_mark(front) {
        return read_marked(alloc, kind, front);
    }
    let line = read_items(alloc, text)?;
    Ok(Line {
        items: fill_empty(line.items)?,
        after: line.after,
    })
}

/// The items, or the empty word where there are none.
fn fill_empty(items: Vec<Item>) -> Result<Vec<Item>, AllocError>
    ensures { IfOk result (λ filled. filled.items ≡ or_empty items.items) }
{
    let mut filled = items;
    if filled.as_slice().is_empty() {
        filled.push(Item::Empty)?;
    }
    Ok(filled)
}

/// The line of one item that begins with a mark.
fn read_marked<'a>(alloc: Global, kind: GraphKind, text: &'a str) -> Result<Line<'a>, Fault<'a>>
    requires { is_marked text.now ≡ true }
    ensures line { IfOk result (λ line. IsMarkedLine kind text.now line.items.items line.after.now) }
    ensures ends { IfOk result (λ line. EndsLine line.after.now) }
    ensures shorter { IfOk result (λ line. length line.after.now ≤ length text.now) }
    ensures bad { IfErr result (StopsMark kind text.now) }
{
    let (own, after) = split_line(text);
    match marked(alloc, kind, own)? {
        Some(item) => {
            let mut items = Vec::new(alloc);
            items.push(item)?;
            Ok(Line { items, after })
        },
        None => Err(Fault::At(text)),
    }
}

/// What stands before the first `+` or `/`, and what stands from there on.
fn split_line(text: &str) -> (&str, &str)
    ensures own { result.0.now ≡ own_text text.now }
    ensures after { result.1.now ≡ after_line text.now }
    ensures ends { EndsLine result.1.now }
    ensures shorter { length result.1.now ≤ length text.now }
{
    match find_line_end(text) {
        Some(end) => (before(text, end), from(text, end)),
        None => (text, ""),
    }
}

/// The place of the first `+` or `/`.
fn find_line_end(text: &str) -> Option<usize>
    ensures { MatchOption result (line_end text.now ≡ length text.now) (IsFirstEnd text.now) }
{
    for (place, byte) in text.as_bytes().iter().enumerate() {
        if *byte == b'+' || *byte == b'/' {
            return Some(place);
        }
    }
    None
}

/// The items that the text begins with, up to the line's end.
fn read_items<'a>(alloc: Global, text: &'a str) -> Result<Line<'a>, Fault<'a>>
    ensures line { IfOk result (λ line. Reads text.now line.items.items line.after.now) }
    ensures ends { IfOk result (λ line. EndsLine line.after.now) }
    ensures shorter { IfOk result (λ line. length line.after.now ≤ length text.now) }
    ensures bad { IfErr result (StopsItems text.now) }
{
    // Most lines have one item: room for four, given back later, leaves a hole for each line.
    let mut items = Vec::with_capacity(alloc, 1)?;
    let mut rest = text;
    loop {
        match read_start(alloc, rest)? {
            Start::Over => return Ok(Line { items, after: rest }),
            Start::Written(item, after) => {
                put(&mut items, item)?;
                rest = after;
            },
            Start::Bad(left) => return Err(Fault::At(left)),
        }
    }
}

/// Puts the item after the items, where there is one.
fn put(items: &mut Vec<Item>, item: Option<Item>) -> Result<(), AllocError>
    ensures { OnOk result (items.new.items ≡ items.old.items ++ with_first item []) }
{
    match item {
        Some(item) => {
            items.push(item)?;
            Ok(())
        },
        None => Ok(()),
    }
}
