//! The different lists of codes so far, each with its number.
//!
//! Few lists are different, and most forms have one that was met before. So a list is looked for by
//! a sketch of the form's entries, and compared with them; only where it isn't the one that was
//! found, it is made. A sketch that finds another list costs time alone.

ghost use Rattle.std.specs.Prelude.{◌≡◌, [], Some, IfOk, IfSome, slice_get};
ghost use Rattle.ux_image.specs.Contents.{code_list};
ghost use Rattle.ux_image.specs.Grouping.{IsKept};

use crate::code::CodeList;
use crate::coding::{code_of, is_short};
use crate::comparing::is_list_of;
use crate::listing::number_of;
use crate::sketch::sketch_of;
use indexmap::{IndexMap, IndexSet};
use std::alloc::Global;
use ux_base::{Mem, NoMemory};
use ux_dawg::Items;
use ux_dict::Stored;

/// The different lists of codes so far.
#[derive(Drop)]
pub(crate) struct Register {
    /// The lists, by number.
    pub lists: IndexSet<CodeList>,
    /// For each sketch the number of the list that was the last to have it.
    guesses: IndexMap<u64, u32>,
}

impl Register {
    /// The register without lists.
    pub(crate) fn new(alloc: Global) -> Register
        ensures { result.lists.keys ≡ [] }
    {
        Register {
            lists: IndexSet::new(alloc),
            guesses: IndexMap::new(alloc),
        }
    }

    /// The number of the entries' list of codes, which is a new one where the list is new. Takes
    /// memory only for a list that its sketch doesn't find.
    pub(crate) fn keep(&mut self, alloc: Global, entries: &[Stored]) -> Mem<usize>
        ensures { IfOk result (λ number.
            IsKept self.old.lists.keys self.new.lists.keys (code_list entries.now) number) }
    {
        let sketch = sketch_of(entries);
        if let Some(number) = self.guess(sketch, entries) {
            return Ok(number);
        }
        let number = keep_list(&mut self.lists, codes_of(alloc, entries)?)?;
        self.guesses.insert(sketch, number_of(number)?)?;
        Ok(number)
    }

    /// The number of the list that the sketch finds, if it is that of the entries.
    fn guess(&self, sketch: u64, entries: &[Stored]) -> Option<usize>
        ensures { IfSome result (λ number.
            slice_get self.now.lists.keys number ≡ Some (code_list entries.now)) }
    {
        let number = *self.guesses.get(&sketch)? as usize;
        let list = self.lists.get_index(number)?;
        if is_list_of(list, entries) {
            return Some(number);
        }
        None
    }
}

/// The codes of the entries.
fn codes_of(alloc: Global, entries: &[Stored]) -> Mem<CodeList>
    ensures { IfOk result (λ list. list ≡ code_list entries.now) }
{
    let mut codes = Items::empty(alloc);
    for entry in entries {
        if !is_short(entry) {
            return Err(NoMemory);
        }
        codes.push(code_of(alloc, entry)?)?;
    }
    Ok(CodeList { codes })
}

/// The number of the list, which is a new one where the list is new.
fn keep_list(lists: &mut IndexSet<CodeList>, list: CodeList) -> Mem<usize>
    ensures { IfOk result (λ number. IsKept lists.old.keys lists.new.keys list number) }
{
    let (number, _is_new) = lists.insert_full(list)?;
    Ok(number)
}
