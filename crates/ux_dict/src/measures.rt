//! What is measured of a list of entries: the characters of its forms, and the longest form.

ghost use Rattle.std.specs.Prelude.{◌≡◌, ◌↔◌, ◌⊎◌, ◌<◌, ℕ, false, All, Contains, IsTrue, IfOk, OnOk, length, slice_index_or};
ghost use Rattle.std.specs.List.Sorted.{IsStrictlyIncreasing};
ghost use Rattle.std.specs.Str.{chars};
ghost use Rattle.ux_dict.specs.Forms.{longest_of};
ghost use Rattle.ux_dict.specs.Kept.{AreMarksOf, IsSpelled};

use crate::stored::Stored;
use std::alloc::{AllocError, Global};
use std::collections::BTreeSet;

/// The different characters of all forms, in order. Takes a step a character.
pub(crate) fn letters_of(alloc: Global, entries: &[Stored]) -> Result<Vec<char>, AllocError>
    ensures increasing { IfOk result (λ letters. IsStrictlyIncreasing letters.items) }
    ensures spelled { IfOk result (λ letters. All (IsSpelled letters.items) entries.now) }
{
    let set = letter_set(alloc, entries)?;
    letters_in(alloc, set)
}

fn letter_set(alloc: Global, entries: &[Stored]) -> Result<BTreeSet<char>, AllocError>
    ensures { IfOk result (λ set. All (IsSpelled set.keys) entries.now) }
{
    let mut set = BTreeSet::new(alloc);
    // By code point, which characters the set has: forms have few, most of them again and again.
    let mut marks = Vec::new(alloc);
    for entry in entries {
        put_letters(&mut set, &mut marks, entry.form())?;
    }
    Ok(set)
}

/// Puts the characters of a text into the set.
fn put_letters(
    set: &mut BTreeSet<char>,
    marks: &mut Vec<bool>,
    text: &str,
) -> Result<(), AllocError>
    requires { AreMarksOf set.old.keys marks.old.items }
    ensures marks { OnOk result (AreMarksOf set.new.keys marks.new.items) }
    ensures kept { OnOk result ((c : ℕ) → Contains set.old.keys c → Contains set.new.keys c) }
    ensures put { OnOk result (All (Contains set.new.keys) (chars text.now)) }
{
    for c in text.chars() {
        put_letter(set, marks, c)?;
    }
    Ok(())
}

/// Puts the character into the set, and marks it. A marked one is in the set already.
fn put_letter(set: &mut BTreeSet<char>, marks: &mut Vec<bool>, c: char) -> Result<(), AllocError>
    requires { AreMarksOf set.old.keys marks.old.items }
    ensures marks { OnOk result (AreMarksOf set.new.keys marks.new.items) }
    ensures kept { OnOk result ((d : ℕ) → Contains set.old.keys d → Contains set.new.keys d) }
    ensures put { OnOk result (Contains set.new.keys c) }
{
    if is_marked(marks, c) {
        return Ok(());
    }
    set.insert(c)?;
    mark(marks, c)?;
    Ok(())
}

fn is_marked(marks: &[bool], c: char) -> bool
    ensures { result ≡ slice_index_or marks.now c false }
{
    marks.get(c as usize).copied().unwrap_or(false)
}

/// Marks the character alone.
fn mark(marks: &mut Vec<bool>, c: char) -> Result<(), AllocError>
    ensures { OnOk result ((d : ℕ) → IsTrue (slice_index_or marks.new.items d false)
        ↔ (IsTrue (slice_index_or marks.old.items d false) ⊎ (d ≡ c))) }
{
    make_room(marks, c)?;
    marks[c as usize] = true;
    Ok(())
}

/// Makes the table so long that it has a place for the character.
fn make_room(marks: &mut Vec<bool>, c: char) -> Result<(), AllocError>
    ensures room { OnOk result (c < length marks.new.items) }
    ensures same { OnOk result ((d : ℕ) →
        slice_index_or marks.new.items d false ≡ slice_index_or marks.old.items d false) }
{
    if (c as usize) < marks.len() {
        return Ok(());
    }
    marks.resize(c as usize + 1, false)
}

fn letters_in(alloc: Global, set: BTreeSet<char>) -> Result<Vec<char>, AllocError>
    ensures items { IfOk result (λ letters. letters.items ≡ set.keys) }
    ensures increasing { IfOk result (λ letters. IsStrictlyIncreasing letters.items) }
{
    set.into_iter().collect(alloc)
}

/// The length in characters of the longest form, 0 where there is none. Takes a step a character.
pub(crate) fn longest_form(entries: &[Stored]) -> usize
    ensures { result ≡ longest_of entries.now }
{
    let mut longest = 0;
    for entry in entries {
        longest = char_count(entry.form()).max(longest);
    }
    longest
}

fn char_count(form: &str) -> usize
    ensures { result ≡ length (chars form.now) }
{
    form.chars().count()
}
