//! The forms of a content, each with the number of its list of codes.
//!
//! The entries of a form stand together, so that its codes are one run, and each form goes into the
//! automaton as it comes: there is no list of forms. Lists are numbered as they are met: the
//! register has each of them once.

ghost use Rattle.std.specs.Prelude.{◌≡◌, ◌<◌, ◌^◌, [], ◌∷◌, ◌++◌, IfOk, OnOk, length, take_while};
ghost use Rattle.std.specs.Str.{bytes_eq, chars};
ghost use Rattle.ux_dawg.specs.Forms.{form_of};
ghost use Rattle.ux_dela.specs.declared.entry.Entry.{Entry as EntryRecord};
ghost use Rattle.ux_image.specs.Contents.{IsContent, AreForms};
ghost use Rattle.ux_image.specs.Grouping.{ComesNext};

use crate::code::CodeList;
use crate::register::Register;
use indexmap::IndexSet;
use std::alloc::Global;
use ux_base::{Mem, NoMemory};
use ux_dawg::Builder;
use ux_dict::Stored;

/// The forms of a content, and their lists of codes.
#[derive(Drop)]
pub struct Listing {
    /// The automaton of the forms, each with the number of its list, to be finished.
    pub builder: Builder,
    /// The different lists, by number.
    pub lists: IndexSet<CodeList>,
}

/// The forms of a content and their lists of codes. `is_content` tells what it asks.
///
/// Takes a step a byte, and beside the result the memory of one form, and of a number for each
/// sketch. Where 32 bits don't hold a number, it answers that memory ran out.
pub fn list_codes(alloc: Global, content: &[Stored]) -> Mem<Listing>
    requires { IsContent content.now }
    ensures { IfOk result (λ l. AreForms content.now l.lists.keys l.builder) }
{
    let mut register = Register::new(alloc);
    let mut builder = Builder::new(alloc);
    let mut letters = Vec::new(alloc);
    let mut rest = content;
    while let Some((first, later)) = rest.split_first() {
        let form = first.form();
        let (run, behind) = rest.split_at(1 + run_len(form, later));
        let number = register.keep(alloc, run)?;
        spell(&mut letters, form)?;
        builder = with_form(builder, &letters, number)?;
        rest = behind;
    }
    let Register { lists, .. } = register;
    Ok(Listing { builder, lists })
}

/// How many entries from the front on have the form.
fn run_len(form: &str, entries: &[Stored]) -> usize
    ensures { result ≡ length (take_while (λ (e : EntryRecord). bytes_eq e.form form.now)
        entries.now) }
{
    entries
        .iter()
        .take_while(|entry| entry.form() == form)
        .count()
}

/// The builder with one more form, which comes after the last one. Where the forms have no longer
/// fewer than 2^32 characters together, memory ran out.
fn with_form(builder: Builder, letters: &[char], number: usize) -> Mem<Builder>
    requires { ComesNext builder letters.now }
    ensures { IfOk result (λ more. more ≡ builder ++ form_of letters.now number ∷ []) }
{
    let code = number_of(number)?;
    // The form comes in order, so that only the number of characters can be against it.
    if !builder.may_add(letters) {
        return Err(NoMemory);
    }
    builder.add(letters, code)
}

/// Makes the letters those of the form.
fn spell(letters: &mut Vec<char>, form: &str) -> Mem<()>
    ensures { OnOk result (letters.new.items ≡ chars form.now) }
{
    letters.clear();
    for letter in form.chars() {
        letters.push(letter)?;
    }
    Ok(())
}

/// The number in 32 bits. Where they don't hold it, memory ran out: there would be 2^32 items or
/// bytes in one dictionary.
pub(crate) fn number_of(number: usize) -> Mem<u32>
    ensures { IfOk result (λ n. (n ≡ number) × (number < 2 ^ 32)) }
{
    u32::try_from(number).map_err(|_| NoMemory)
}
