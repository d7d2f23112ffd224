//! The entries that codes make of forms.

ghost use Rattle.std.specs.Prelude.{◌≡◌, ◌++◌, IfOk, OnOk, map, slice_get};
ghost use Rattle.ux_dict.specs.Content.{AreDifferent};
ghost use Rattle.ux_image_lexicon.specs.Told.{entries_by, entries_told as told_of, entry_by, read_in};

use crate::codes::{ReadCode, ReadList};
use std::alloc::Global;
use ux_base::{Mem, Txt};
use ux_dawg::Form;
use ux_dela::{Codes, Entry};
use ux_dict::different;
use ux_image::lemma_of;
use ux_image_content::text_of;

/// What the codes of their lists make of the forms, one after another, with no room beyond it.
pub(crate) fn entries_told(alloc: Global, lists: &[ReadList], forms: &[Form]) -> Mem<Vec<Entry>>
    ensures { IfOk result (λ entries. entries.items ≡ told_of lists.now forms.now) }
{
    let mut entries = Vec::new(alloc);
    for form in forms {
        push_form(alloc, lists, form, &mut entries)?;
    }
    entries.shrink_to_fit();
    Ok(entries)
}

/// The entries, each at its first place alone. Takes no memory for fewer than two.
pub(crate) fn each_once(alloc: Global, entries: Vec<Entry>) -> Mem<Vec<Entry>>
    ensures { IfOk result (λ once. AreDifferent entries.items once.items) }
{
    if entries.len() < 2 {
        return Ok(entries);
    }
    different(alloc, entries)
}

/// Puts what the codes of its list make of the form last.
fn push_form(alloc: Global, lists: &[ReadList], form: &Form, entries: &mut Vec<Entry>) -> Mem<()>
    ensures { OnOk result (entries.new.items ≡ entries.old.items ++ entries_by lists.now form.now) }
{
    let text = text_of(alloc, form.letters.as_slice())?;
    push_codes(alloc, text.as_str(), codes_at(lists, form.code), entries)
}

/// The codes of the list of this number; none, where there is no list.
pub(crate) fn codes_at(lists: &[ReadList], number: u32) -> &[ReadCode]
    ensures { result.now ≡ read_in (slice_get lists.now number) }
{
    match lists.get(number as usize) {
        Some(list) => list.codes.as_slice(),
        None => &[],
    }
}

/// Puts what the codes make of the form last.
pub(crate) fn push_codes(
    alloc: Global,
    form: &str,
    codes: &[ReadCode],
    entries: &mut Vec<Entry>,
) -> Mem<()>
    ensures { OnOk result
        (entries.new.items ≡ entries.old.items ++ map (entry_by form.now) codes.now) }
{
    for code in codes {
        entries.push(entry_of(alloc, form, code)?)?;
    }
    Ok(())
}

/// The entry that the code makes of the form.
fn entry_of(alloc: Global, form: &str, code: &ReadCode) -> Mem<Entry>
    ensures { IfOk result (λ entry. entry ≡ entry_by form.now code.now) }
{
    let lemma = lemma_of(alloc, form, code.pairs.as_slice())?;
    let form = Txt::from_str(alloc, form)?;
    let Codes { gram, sem, infl } = code.codes.copy()?;
    Ok(Entry {
        form,
        lemma,
        gram,
        sem,
        infl,
    })
}
