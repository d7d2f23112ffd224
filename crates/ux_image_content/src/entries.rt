//! The entries that codes make of forms.

ghost use Rattle.std.specs.Prelude.{◌≡◌, ◌∷◌, [], IfOk, OnOk, flat_map, map, slice_get, string_bytes};
ghost use Rattle.std.specs.Str.{encode_utf8_all};
ghost use Rattle.ux_image_content.specs.Contents.{codes_of, told_by, AreRebuilt};
ghost use Rattle.ux_image_content.specs.Walking.{Adds, AreCodes, AreLists, IsGood};

use indexmap::IndexSet;
use std::alloc::{AllocError, Global};
use ux_base::Mem;
use ux_dawg::Form;
use ux_dela::Entry;
use ux_image::{Code, CodeList, rebuild};

/// What the codes of their lists make of the forms, one after another.
pub(crate) fn rebuild_all(
    alloc: Global,
    forms: &[Form],
    lists: &IndexSet<CodeList>,
) -> Mem<Vec<Entry>>
    requires { AreLists lists.now.keys }
    ensures { IfOk result (λ entries.
        AreRebuilt (flat_map (told_by lists.now.keys) forms.now) entries.items) }
{
    let mut entries = Vec::new(alloc);
    for form in forms {
        rebuild_form(alloc, form, lists, &mut entries)?;
    }
    Ok(entries)
}

/// Puts what the codes of its list make of the form behind the entries.
fn rebuild_form(
    alloc: Global,
    form: &Form,
    lists: &IndexSet<CodeList>,
    entries: &mut Vec<Entry>,
) -> Mem<()>
    requires { AreLists lists.now.keys }
    ensures { OnOk result (Adds (told_by lists.now.keys form.now) entries.old.items
        entries.new.items) }
{
    let text = text_of(alloc, form.letters.as_slice())?;
    rebuild_codes(alloc, text.as_str(), codes_at(lists, form.code), entries)
}

/// The codes of the list of this number; none, where there is no list.
fn codes_at(lists: &IndexSet<CodeList>, number: u32) -> &[Code]
    ensures { result.now ≡ codes_of (slice_get lists.now.keys number) }
{
    match lists.get_index(number as usize) {
        Some(list) => list.codes.as_slice(),
        None => &[],
    }
}

/// The text of the letters.
pub fn text_of(alloc: Global, letters: &[char]) -> Result<String, AllocError>
    ensures { IfOk result (λ text. string_bytes text ≡ encode_utf8_all letters.now) }
{
    let mut text = String::new(alloc);
    for letter in letters {
        text.push(*letter)?;
    }
    Ok(text)
}

/// Puts what the codes make of the form behind the entries.
fn rebuild_codes(alloc: Global, form: &str, codes: &[Code], entries: &mut Vec<Entry>) -> Mem<()>
    requires { AreCodes codes.now }
    ensures { OnOk result (Adds (map (λ code. (form.now, code)) codes.now) entries.old.items
        entries.new.items) }
{
    for code in codes {
        rebuild_one(alloc, form, code, entries)?;
    }
    Ok(())
}

/// Puts what the code makes of the form behind the entries.
fn rebuild_one(alloc: Global, form: &str, code: &Code, entries: &mut Vec<Entry>) -> Mem<()>
    requires { IsGood code.now }
    ensures { OnOk result (Adds ((form.now, code.now) ∷ []) entries.old.items entries.new.items) }
{
    // Codes as they are printed make an entry of any form.
    if let Some(entry) = rebuild(alloc, form, code)? {
        entries.push(entry)?;
    }
    Ok(())
}
