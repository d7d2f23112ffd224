//! The head of a graph file: the header, and the number of boxes.

ghost use Rattle.std.specs.Prelude.{◌≡◌, ◌==◌, ◌≤◌, IfSome, ◌∷◌, [], IfOk, IsTrue, false, None, Some};
ghost use Rattle.std.specs.List.{list_all};
ghost use Rattle.ux_grf.specs.Words.{SPACE};
ghost use Rattle.ux_grf.specs.Header.{is_mark, after_mark, after_header, count_of, count_in};

use crate::error::GrfError;
use crate::number::decimal;
use crate::words::{Gap, words};
use std::alloc::{AllocError, Global};
use ux_base::Lines;

/// Takes the lines up to the line `#`; whether the header is whole.
pub fn skip_header(lines: &mut Lines<'_>) -> bool
    ensures yes { IsTrue result → after_header lines.old ≡ Some lines.new }
    ensures no { result ≡ false → after_header lines.old ≡ None }
{
    match lines.next() {
        Some(line) => is_mark_line(b"#Unigraph", line) && skip_to_mark(lines),
        None => false,
    }
}

/// Takes the lines up to a line `#`; whether there is one.
fn skip_to_mark(lines: &mut Lines<'_>) -> bool
    ensures yes { IsTrue result → after_mark lines.old ≡ Some lines.new }
    ensures no { result ≡ false → after_mark lines.old ≡ None }
{
    while let Some(line) = lines.next() {
        if is_mark_line(b"#", line) {
            return true;
        }
    }
    false
}

/// Whether the line is the mark, and then spaces or nothing.
fn is_mark_line(mark: &[u8], line: &str) -> bool
    ensures { result ≡ is_mark mark.now line.now }
{
    match line.as_bytes().strip_prefix(mark) {
        Some(rest) => has_only_spaces(rest),
        None => false,
    }
}

fn has_only_spaces(text: &[u8]) -> bool
    ensures { result ≡ list_all (λ b. b == SPACE) text.now }
{
    text.iter().all(|byte| *byte == b' ')
}

/// The number of boxes that the line tells.
pub fn read_count(alloc: Global, line: &str) -> Result<Option<u32>, AllocError>
    ensures count { IfOk result (λ count. count ≡ count_of line.now) }
    ensures range { IfOk result (λ count. IfSome count (λ n. (2 ≤ n) × (n ≤ 65535))) }
{
    if line.as_bytes().first() == Some(&b' ') {
        return Ok(None);
    }
    let words = words(alloc, Gap::Spaces, line)?;
    match words.as_slice() {
        [word] => Ok(box_count(word.as_bytes())),
        _ => Ok(None),
    }
}

/// The number of boxes that a word tells.
fn box_count(word: &[u8]) -> Option<u32>
    ensures count { result ≡ count_in (word.now ∷ []) }
    ensures range { IfSome result (λ count. (2 ≤ count) × (count ≤ 65535)) }
{
    let count = decimal(word)?;
    if 2 <= count && count <= 65_535 {
        Some(count as u32)
    } else {
        None
    }
}
