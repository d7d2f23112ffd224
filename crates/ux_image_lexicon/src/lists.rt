//! Reading the codes of an image's lists.

ghost use Rattle.std.specs.Prelude.{◌≡◌, IfOk};
ghost use Rattle.std.specs.List.{AllZip};
ghost use Rattle.ux_image_content.specs.Walking.{AreCodes, AreLists, IsGood};
ghost use Rattle.ux_image_lexicon.specs.Told.{AreRead, IsRead};

use crate::codes::{ReadCode, ReadList};
use indexmap::IndexSet;
use std::alloc::{AllocError, Global};
use ux_base::{Lst, Mem};
use ux_dawg::Items;
use ux_dela::read_codes;
use ux_image::{Code, CodeList, Pair};

/// The lists with their codes read. Takes a step a byte.
pub(crate) fn read_lists(alloc: Global, lists: &IndexSet<CodeList>) -> Mem<Vec<ReadList>>
    requires { AreLists lists.now.keys }
    ensures { IfOk result (λ read. AreRead lists.now.keys read.items) }
{
    let mut read = Vec::new(alloc);
    for list in lists.as_slice() {
        read.push(read_list(alloc, list)?)?;
    }
    Ok(read)
}

/// The list with its codes read.
fn read_list(alloc: Global, list: &CodeList) -> Mem<ReadList>
    requires { AreCodes list.now.codes }
    ensures { IfOk result (λ read. AllZip IsRead list.now.codes read.codes) }
{
    let mut codes = Vec::new(alloc);
    for code in list.codes.as_slice() {
        codes.push(read_code(alloc, code)?)?;
    }
    Ok(ReadList {
        codes: Lst::new(codes),
    })
}

/// The code with its printed codes read.
fn read_code(alloc: Global, code: &Code) -> Mem<ReadCode>
    requires { IsGood code.now }
    ensures { IfOk result (IsRead code.now) }
{
    match read_codes(alloc, code.codes.as_str())? {
        Some(codes) => Ok(ReadCode {
            pairs: copies(alloc, code.pairs.as_slice())?,
            codes,
        }),
        // The codes of an image are such as are printed.
        None => unreachable!(),
    }
}

/// Copies of the pairs.
fn copies(alloc: Global, pairs: &[Pair]) -> Mem<Items<Pair>>
    ensures { IfOk result (λ copies. copies ≡ pairs.now) }
{
    let mut copies = Items::empty(alloc);
    for pair in pairs {
        copies.push(copy_of(pair)?)?;
    }
    Ok(copies)
}

/// A copy of the pair.
fn copy_of(pair: &Pair) -> Result<Pair, AllocError>
    ensures { IfOk result (λ copy. copy ≡ pair.now) }
{
    Ok(Pair {
        taken: pair.taken,
        added: pair.added.clone()?,
    })
}
