//! The tables of an alphabet, by which a question about a character is a look-up.

ghost use Rattle.std.specs.Prelude.{◌≡◌, ◌↔◌, ◌⊎◌, ℕ, false, Any, IsTrue, IfOk, Contains, slice_index_or};
ghost use Rattle.ux_alphabet.specs.Letters.{NamesUpper, NamesLower, letters_of, IsUpper, IsLower, IsLetter, FitsAlone};
ghost use Rattle.ux_alphabet.specs.Tables.{IsEither};
ghost use Rattle.ux_alphabet.specs.declared.line.Line.TheVariants.{Pair};

use crate::line::Line;
use crate::pairs::{Pairs, has_pair, pairs_of};
use crate::spans::{is_marked, is_never_letter, lower_spans, table_of, upper_spans};
use crate::upper_forms::upper_form_table;
use std::alloc::{AllocError, Global};
use std::marker::Model;

/// The lines of an alphabet, with what they say of each character.
#[derive(Drop)]
pub(crate) struct Tables {
    lines: Vec<Line>,
    /// By code point, whether the character is an upper-case letter; no letter comes later.
    upper: Vec<bool>,
    /// The same of lower-case letters.
    lower: Vec<bool>,
    /// The same of letters of either case, so that the most frequent question is one look-up.
    letter: Vec<bool>,
    /// By code point, whether the character is an upper-case form of another one; white space and
    /// braces may be, and are no letters all the same.
    upper_forms: Vec<bool>,
    pairs: Pairs,
}

impl Model for Tables {
    ghost use Rattle.std.specs.Prelude.{List};
    ghost use Rattle.ux_alphabet.specs.declared.line.Line.{Line};

    ghost Value = { List Line };

    ghost view = { λ tables. tables.lines.items };

    ghost use Rattle.ux_alphabet.specs.Tables.{AreTablesOf};

    ghost invariant = { λ t. AreTablesOf t.lines.items t.upper.items t.lower.items t.letter.items
        t.upper_forms.items t.pairs.keys };
}

impl Tables {
    /// The tables of these lines.
    pub(crate) fn of(alloc: Global, lines: Vec<Line>) -> Result<Tables, AllocError>
        ensures { IfOk result (λ tables. tables ≡ lines.items) }
    {
        let upper = upper_table(alloc, &lines)?;
        let lower = lower_table(alloc, &lines)?;
        let letter = either_table(alloc, &upper, &lower)?;
        let upper_forms = upper_form_table(alloc, &lines)?;
        let pairs = pairs_of(alloc, &lines)?;
        Ok(Tables {
            lines,
            upper,
            lower,
            letter,
            upper_forms,
            pairs,
        })
    }

    /// Whether the character is a letter.
    pub(crate) fn is_letter(&self, c: char) -> bool
        ensures { IsTrue result ↔ IsLetter (letters_of self.now) c }
    {
        is_marked(&self.letter, c as usize)
    }

    /// Whether the character is an upper-case letter.
    pub(crate) fn is_upper(&self, c: char) -> bool
        ensures { IsTrue result ↔ IsUpper (letters_of self.now) c }
    {
        is_marked(&self.upper, c as usize)
    }

    /// Whether the character is a lower-case letter.
    pub(crate) fn is_lower(&self, c: char) -> bool
        ensures { IsTrue result ↔ IsLower (letters_of self.now) c }
    {
        is_marked(&self.lower, c as usize)
    }

    /// Whether one line is this pair. Most answers are no, and come from the letters alone.
    pub(crate) fn has_pair(&self, upper: char, lower: char) -> bool
        ensures { IsTrue result ↔ Contains self.now (Pair upper lower) }
    {
        self.may_be_pair(upper, lower) && has_pair(&self.pairs, upper, lower)
    }

    /// Whether no other character fits this one of a text.
    pub(crate) fn fits_alone(&self, c: char) -> bool
        ensures { IsTrue result ↔ FitsAlone (letters_of self.now) c }
    {
        !is_marked(&self.upper_forms, c as usize)
    }

    /// Whether the letters leave it open that one line is this pair.
    fn may_be_pair(&self, upper: char, lower: char) -> bool
        ensures { Contains self.now (Pair upper lower) → IsTrue result }
    {
        self.may_be_upper(upper) && self.may_be_lower(lower)
    }

    /// Whether a line may name the character as an upper-case letter. White space and braces may be
    /// named, and are no letters all the same.
    fn may_be_upper(&self, c: char) -> bool
        ensures { Any (λ line. NamesUpper line c) self.now → IsTrue result }
    {
        self.is_upper(c) || is_never_letter(c as usize)
    }

    /// Whether a line may name the character as a lower-case letter.
    fn may_be_lower(&self, c: char) -> bool
        ensures { Any (λ line. NamesLower line c) self.now → IsTrue result }
    {
        self.is_lower(c) || is_never_letter(c as usize)
    }
}

/// By code point, whether the lines make the character an upper-case letter.
fn upper_table(alloc: Global, lines: &[Line]) -> Result<Vec<bool>, AllocError>
    ensures { IfOk result (λ table. (c : ℕ) →
        IsTrue (slice_index_or table.items c false) ↔ IsUpper (letters_of lines.now) c) }
{
    let spans = upper_spans(alloc, lines)?;
    table_of(alloc, &spans)
}

/// By code point, whether the lines make the character a lower-case letter.
fn lower_table(alloc: Global, lines: &[Line]) -> Result<Vec<bool>, AllocError>
    ensures { IfOk result (λ table. (c : ℕ) →
        IsTrue (slice_index_or table.items c false) ↔ IsLower (letters_of lines.now) c) }
{
    let spans = lower_spans(alloc, lines)?;
    table_of(alloc, &spans)
}

/// By code point, whether one of the tables has the character.
fn either_table(alloc: Global, upper: &[bool], lower: &[bool]) -> Result<Vec<bool>, AllocError>
    ensures { IfOk result (λ table. IsEither upper.now lower.now table.items) }
{
    let size = upper.len().max(lower.len());
    let mut table = Vec::with_capacity(alloc, size)?;
    for place in 0..size {
        table.push(is_marked(upper, place) || is_marked(lower, place))?;
    }
    Ok(table)
}
