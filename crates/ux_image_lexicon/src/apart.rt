//! Lists whose codes make as many entries of any form as they are.
//!
//! Most codes of a list differ in more than the lemma that they make, so their entries differ
//! whatever the form is. That is found once for each list.

ghost use Rattle.std.specs.Prelude.{◌≡◌, IfOk, IsTrue, false, slice_get};
ghost use Rattle.std.specs.Option.{unwrap_or};
ghost use Rattle.ux_image_lexicon.specs.Counting.{bare_of, AreApart, IsApart};

use crate::codes::{ReadCode, ReadList};
use std::alloc::Global;
use ux_base::{Mem, Txt};
use ux_dela::{Codes, Entry};
use ux_dict::different;

/// A flag for each list, which is true where its codes make as many entries of any form.
pub(crate) fn lists_apart(alloc: Global, lists: &[ReadList]) -> Mem<Vec<bool>>
    ensures { IfOk result (λ flags. AreApart lists.now flags.items) }
{
    let mut flags = Vec::new(alloc);
    for list in lists {
        flags.push(is_apart(alloc, list.codes.as_slice())?)?;
    }
    Ok(flags)
}

/// The flag of this number; false, where there is none.
pub(crate) fn flag_at(flags: &[bool], number: u32) -> bool
    ensures { result ≡ unwrap_or (slice_get flags.now number) false }
{
    match flags.get(number as usize) {
        Some(flag) => *flag,
        None => false,
    }
}

/// Whether the codes differ in more than the lemmas that they make.
fn is_apart(alloc: Global, codes: &[ReadCode]) -> Mem<bool>
    ensures { IfOk result (λ apart. IsTrue apart → IsApart codes.now) }
{
    let mut bare = Vec::new(alloc);
    for code in codes {
        bare.push(bare_entry(alloc, code)?)?;
    }
    Ok(different(alloc, bare)?.len() == codes.len())
}

/// An entry of these codes, without form and lemma.
fn bare_entry(alloc: Global, code: &ReadCode) -> Mem<Entry>
    ensures { IfOk result (λ entry. entry ≡ bare_of code.now) }
{
    let Codes { gram, sem, infl } = code.codes.copy()?;
    Ok(Entry {
        form: Txt::from_str(alloc, "")?,
        lemma: Txt::from_str(alloc, "")?,
        gram,
        sem,
        infl,
    })
}
