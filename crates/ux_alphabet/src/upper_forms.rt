//! The table of the characters that are upper-case forms of others.
//!
//! A character of a text that isn't marked is fitted by itself alone. White space and braces are
//! never letters, but a line may pair them all the same, so that they are marked as any other.

ghost use Rattle.std.specs.Prelude.{◌≡◌, ◌↔◌, ◌<◌, ℕ, All, MatchOption, IfOk};
ghost use Rattle.ux_alphabet.specs.Tables.{NamesUpperForm, AreUpperForms};

use crate::line::Line;
use std::alloc::{AllocError, Global};

/// By code point, whether the character is an upper-case form of another one.
pub(crate) fn upper_form_table(alloc: Global, lines: &[Line]) -> Result<Vec<bool>, AllocError>
    ensures { IfOk result (λ table. AreUpperForms lines.now table.items) }
{
    let mut table = vec![in alloc; false; end_of(lines)]?;
    for line in lines {
        if let Some(upper) = upper_form_of(line) {
            table[upper as usize] = true;
        }
    }
    Ok(table)
}

/// A place behind every upper-case form of another character.
fn end_of(lines: &[Line]) -> usize
    ensures { All (λ line. (c : ℕ) → NamesUpperForm line c → c < result) lines.now }
{
    let mut end = 0;
    for line in lines {
        end = end.max(end_of_line(line));
    }
    end
}

/// A place behind the upper-case form that the line names.
fn end_of_line(line: &Line) -> usize
    ensures { (c : ℕ) → NamesUpperForm line.now c → c < result }
{
    match upper_form_of(line) {
        Some(upper) => upper as usize + 1,
        None => 0,
    }
}

/// The upper-case form of another character that the line names, if it names one.
fn upper_form_of(line: &Line) -> Option<char>
    ensures { MatchOption result ((c : ℕ) → NamesUpperForm line.now c → ⊥)
        (λ upper. (c : ℕ) → NamesUpperForm line.now c ↔ (c ≡ upper)) }
{
    match *line {
        Line::Pair(upper, lower) if upper != lower => Some(upper),
        Line::Pair(_, _) | Line::Single(_) | Line::Range(_, _) => None,
    }
}
