//! Tables of the characters that spans hold.
//!
//! A table is made in two passes. The first notes at the first character of each span how far the
//! spans reach that begin there. The second goes over the characters in order and carries the
//! furthest end so far, so that a character is held exactly where it comes before that end. The
//! time is linear in the spans and in the greatest character, however far the spans overlap.

ghost use Rattle.std.specs.Prelude.{◌≡◌, ◌↔◌, ◌<◌, ◌≤◌, ℕ, IsTrue, IfOk, All, ◌+◌, length, map, slice_index_or, false};
ghost use Rattle.ux_alphabet.specs.Letters.{never_letter};
ghost use Rattle.ux_alphabet.specs.Spans.{upper_span, lower_span, AreReaches, IsSwept, IsTableOf};

use crate::line::Line;
use std::alloc::{AllocError, Global};

/// The characters from the first to the last.
#[derive(Clone, Copy)]
pub(crate) struct Span {
    pub(crate) first: char,
    pub(crate) last: char,
}

/// What each line makes an upper-case letter.
pub(crate) fn upper_spans(alloc: Global, lines: &[Line]) -> Result<Vec<Span>, AllocError>
    ensures { IfOk result (λ spans. spans.items ≡ map upper_span lines.now) }
{
    lines.iter().map(upper_span_of).collect(alloc)
}

/// What each line makes a lower-case letter.
pub(crate) fn lower_spans(alloc: Global, lines: &[Line]) -> Result<Vec<Span>, AllocError>
    ensures { IfOk result (λ spans. spans.items ≡ map lower_span lines.now) }
{
    lines.iter().map(lower_span_of).collect(alloc)
}

/// The table of the spans: for each character whether a span holds it and it may be a letter. A
/// character behind the table's end is held by no span.
pub(crate) fn table_of(alloc: Global, spans: &[Span]) -> Result<Vec<bool>, AllocError>
    ensures { IfOk result (λ table. IsTableOf spans.now table.items) }
{
    let size = end_of(spans);
    let reaches = reaches_of(alloc, spans, size)?;
    swept(alloc, &reaches)
}

/// Whether the table has the character with this code.
pub(crate) fn is_marked(table: &[bool], code: usize) -> bool
    ensures { result ≡ slice_index_or table.now code false }
{
    table.get(code).copied().unwrap_or(false)
}

fn upper_span_of(line: &Line) -> Span
    ensures { result ≡ upper_span line.now }
{
    match *line {
        Line::Single(letter) => Span {
            first: letter,
            last: letter,
        },
        Line::Pair(upper, _) => Span {
            first: upper,
            last: upper,
        },
        Line::Range(first, last) => Span { first, last },
    }
}

fn lower_span_of(line: &Line) -> Span
    ensures { result ≡ lower_span line.now }
{
    match *line {
        Line::Single(letter) => Span {
            first: letter,
            last: letter,
        },
        Line::Pair(_, lower) => Span {
            first: lower,
            last: lower,
        },
        Line::Range(first, last) => Span { first, last },
    }
}

/// A place behind every character that the spans name.
fn end_of(spans: &[Span]) -> usize
    ensures { All (λ span. (span.first < result) × (span.last < result)) spans.now }
{
    let mut end = 0;
    for span in spans {
        end = end.max(span.first as usize + 1).max(span.last as usize + 1);
    }
    end
}

/// How far the spans reach that begin at each character.
fn reaches_of(alloc: Global, spans: &[Span], size: usize) -> Result<Vec<u32>, AllocError>
    requires { All (λ span. (span.first < size) × (span.last < size)) spans.now }
    ensures size { IfOk result (λ reaches. length reaches.items ≡ size) }
    ensures reaches { IfOk result (λ reaches. AreReaches spans.now reaches.items) }
{
    let mut reaches = vec![in alloc; 0u32; size]?;
    for span in spans {
        let slot = &mut reaches[span.first as usize];
        *slot = (*slot).max(span.last as u32 + 1);
    }
    Ok(reaches)
}

/// Whether each place may be a letter and comes before an end that a place up to it reaches.
fn swept(alloc: Global, reaches: &[u32]) -> Result<Vec<bool>, AllocError>
    ensures { IfOk result (λ table. IsSwept reaches.now table.items) }
{
    let mut table = Vec::new(alloc);
    let mut end: usize = 0;
    for (place, reach) in reaches.iter().enumerate() {
        end = end.max(*reach as usize);
        table.push(is_mark(place, end))?;
    }
    Ok(table)
}

/// Whether the place may be a letter and comes before the end.
fn is_mark(place: usize, end: usize) -> bool
    ensures { IsTrue result ↔ ((never_letter place ≡ false) × (place < end)) }
{
    place < end && !is_never_letter(place)
}

/// Whether the character with this code is white space or a brace.
pub(crate) fn is_never_letter(code: usize) -> bool
    ensures { result ≡ never_letter code }
{
    matches!(code, 0x20 | 0x09 | 0x0d | 0x0a | 0x7b | 0x7d)
}
