//! The line of one box: its content, as it stands between the quotation marks, and its targets.
//!
//! `specs/BoxLine.antt` has the form of the line.

ghost use Rattle.std.specs.Prelude.{◌≡◌, ◌==◌, ◌<◌, map, slice_index, IfOk, option_map};
ghost use Rattle.ux_grf.specs.BoxLine.{without_mark, box_of, box_in, content_and_fields, values_in, targets_in, numbers_in, said_by};

use crate::number::{is_coordinate_word, number};
use crate::protection::{Stop, find_free};
use crate::words::{Gap, after, before, words};
use std::alloc::{AllocError, Global};

/// What a box line says.
#[derive(Drop)]
pub struct BoxLine<'a> {
    /// What stands between the quotation marks.
    pub content: &'a str,
    /// The targets as they are written.
    pub targets: Vec<u32>,
}

/// What the line says, where it is a box line.
pub fn read_box_line<'a>(alloc: Global, line: &'a str) -> Result<Option<BoxLine<'a>>, AllocError>
    ensures { IfOk result (λ said. option_map said_by said ≡ box_of line.now) }
{
    let text = without_start_mark(line);
    if !begins_with(text, b'"') {
        return Ok(None);
    }
    read_quoted(alloc, after(text, 0))
}

/// What stands after the first quotation mark.
fn read_quoted<'a>(alloc: Global, text: &'a str) -> Result<Option<BoxLine<'a>>, AllocError>
    ensures { IfOk result (λ said. option_map said_by said ≡ content_and_fields text.now) }
{
    match find_free(Stop::Mark, text) {
        Some(end) => read_box(alloc, before(text, end), after(text, end)),
        None => Ok(None),
    }
}

/// The content, and what stands after its end.
fn read_box<'a>(
    alloc: Global,
    content: &'a str,
    fields: &str,
) -> Result<Option<BoxLine<'a>>, AllocError>
    ensures { IfOk result (λ said. option_map said_by said ≡ box_in content.now fields.now) }
{
    if !begins_with(fields, b' ') {
        return Ok(None);
    }
    let words = words(alloc, Gap::Spaces, fields)?;
    match read_targets(alloc, &words)? {
        Some(targets) => Ok(Some(BoxLine { content, targets })),
        None => Ok(None),
    }
}

/// Whether the text begins with the byte.
fn begins_with(text: &str, byte: u8) -> bool
    requires { 0 < byte }
    ensures { result ≡ (slice_index text.now 0 == byte) }
{
    match text.as_bytes().first() {
        Some(first) => *first == byte,
        None => false,
    }
}

/// The line without an `s` in front.
fn without_start_mark(line: &str) -> &str
    ensures { result.now ≡ without_mark line.now }
{
    if begins_with(line, b's') {
        after(line, 0)
    } else {
        line
    }
}

/// The targets that the words after the content name.
fn read_targets(alloc: Global, words: &[&str]) -> Result<Option<Vec<u32>>, AllocError>
    ensures { IfOk result (λ targets. values_in targets ≡ targets_in (map (λ w. w.now) words.now)) }
{
    let [x, y, count, targets @ ..] = words else {
        return Ok(None);
    };
    if !is_coordinate_word(x.as_bytes()) || !is_coordinate_word(y.as_bytes()) {
        return Ok(None);
    }
    match number(count.as_bytes()) {
        Some(count) if count as usize == targets.len() => read_numbers(alloc, targets),
        _ => Ok(None),
    }
}

/// The values of the words, where each is a number.
fn read_numbers(alloc: Global, words: &[&str]) -> Result<Option<Vec<u32>>, AllocError>
    ensures { IfOk result (λ values. values_in values ≡ numbers_in (map (λ w. w.now) words.now)) }
{
    let mut values = Vec::new(alloc);
    for word in words {
        match number(word.as_bytes()) {
            Some(value) => values.push(value)?,
            None => return Ok(None),
        }
    }
    Ok(Some(values))
}
