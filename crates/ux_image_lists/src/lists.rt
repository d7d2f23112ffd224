//! Reading the lists of codes, each of which is another one.

ghost use Rattle.std.specs.Prelude.{◌≡◌, ◌+◌, [], ◌∷◌, ◌++◌, IfErr, IfOk, OnOk, length};
ghost use Rattle.ux_image.specs.declared.code.Code.{Code as CodeRecord};
ghost use Rattle.ux_image.specs.declared.code.CodeList.{CodeList as ListRecord};
ghost use Rattle.ux_image_lists.specs.Fields.{closed, each, tested, Stops};
ghost use Rattle.ux_image_lists.specs.Lists.{codes_in, list, lists, next_code, IsNew};
ghost use Rattle.ux_image_reader.specs.declared.error.ImageError.TheVariants.{BadCode};

use crate::codes::{Rules, read_code, read_count};
use crate::rest::Rest;
use indexmap::IndexSet;
use std::alloc::Global;
use ux_base::{Mem, NoMemory};
use ux_dawg::Items;
use ux_image::{Code, CodeList};
use ux_image_reader::{ImageError, Version};

/// The lists of codes of which the bytes are made, or the first fault. Of each list is told how
/// many characters the shortest form with it has.
///
/// The time is linear in the bytes, and no more room is taken than what was read needs, whatever
/// the counts say.
pub fn read_lists(
    alloc: Global,
    version: Version,
    shortest: &[usize],
    bytes: &[u8],
) -> Result<IndexSet<CodeList>, ImageError>
    ensures ok { IfOk result (λ all.
        (closed (lists version shortest.now)).Begins bytes.now all.keys []) }
    ensures err { IfErr result (Stops (closed (lists version shortest.now)) bytes.now) }
{
    let mut rest = Rest { bytes };
    let all = read_each_list(alloc, version, shortest, &mut rest)?;
    if !rest.bytes.is_empty() {
        return Err(ImageError::Trailing);
    }
    Ok(all)
}

/// Reads a list for each of the shortest forms.
fn read_each_list(
    alloc: Global,
    version: Version,
    shortest: &[usize],
    rest: &mut Rest<'_>,
) -> Result<IndexSet<CodeList>, ImageError>
    ensures ok { IfOk result (λ all.
        (lists version shortest.now).Begins rest.old.bytes.now all.keys rest.new.bytes.now) }
    ensures err { IfErr result (Stops (lists version shortest.now) rest.old.bytes.now) }
{
    let mut all = IndexSet::new(alloc);
    let mut first = 0;
    for letters in shortest {
        let rules = Rules {
            version,
            shortest: *letters,
        };
        let many = read_next_list(alloc, rules, first, &mut all, rest)?;
        first = number_behind(first, many)?;
    }
    Ok(all)
}

/// Reads the list whose first code has this number, and tells how many codes it has.
fn read_next_list(
    alloc: Global,
    rules: Rules,
    first: usize,
    all: &mut IndexSet<CodeList>,
    rest: &mut Rest<'_>,
) -> Result<usize, ImageError>
    ensures ok { IfOk result (λ many. (next : ListRecord)
        × (tested (list rules first) (IsNew all.old.keys) (BadCode first)).Begins
        rest.old.bytes.now next rest.new.bytes.now
        × (all.new.keys ≡ all.old.keys ++ next ∷ []) × (many ≡ length next.codes)) }
    ensures err { IfErr result (Stops (tested (list rules first) (IsNew all.old.keys)
        (BadCode first)) rest.old.bytes.now) }
{
    let list = read_list(alloc, rules, first, rest)?;
    let many = list.codes.as_slice().len();
    if !all.insert(list)? {
        return Err(ImageError::BadCode { number: first });
    }
    Ok(many)
}

/// Reads a list whose first code has this number.
fn read_list(
    alloc: Global,
    rules: Rules,
    first: usize,
    rest: &mut Rest<'_>,
) -> Result<CodeList, ImageError>
    ensures ok { IfOk result (λ l.
        (list rules first).Begins rest.old.bytes.now l rest.new.bytes.now) }
    ensures err { IfErr result (Stops (list rules first) rest.old.bytes.now) }
{
    let many = read_count(first, rest)?;
    let codes = read_each_code(alloc, rules, first, many, rest)?;
    Ok(CodeList {
        codes: in_order(alloc, codes)?,
    })
}

/// The codes of a set, in order.
fn in_order(alloc: Global, codes: IndexSet<Code>) -> Mem<Items<Code>>
    ensures { IfOk result (λ items. items ≡ codes.keys) }
{
    let mut items = Items::empty(alloc);
    for code in codes {
        items.push(code)?;
    }
    Ok(items)
}

/// Reads so many codes, of which the first has this number.
fn read_each_code(
    alloc: Global,
    rules: Rules,
    first: usize,
    many: u32,
    rest: &mut Rest<'_>,
) -> Result<IndexSet<Code>, ImageError>
    ensures ok { IfOk result (λ codes. (each many (next_code rules first)).Begins
        rest.old.bytes.now codes.keys rest.new.bytes.now) }
    ensures err { IfErr result (Stops (each many (next_code rules first)) rest.old.bytes.now) }
{
    let mut codes = IndexSet::new(alloc);
    for _ in 0..many {
        read_next_code(alloc, rules, first, &mut codes, rest)?;
    }
    Ok(codes)
}

/// Reads the code behind these ones, of which the first has this number.
fn read_next_code(
    alloc: Global,
    rules: Rules,
    first: usize,
    codes: &mut IndexSet<Code>,
    rest: &mut Rest<'_>,
) -> Result<(), ImageError>
    ensures ok { OnOk result ((next : CodeRecord)
        × (next_code rules first codes.old.keys).Begins rest.old.bytes.now next
        rest.new.bytes.now × (codes.new.keys ≡ codes.old.keys ++ next ∷ [])) }
    ensures err { IfErr result (Stops (next_code rules first codes.old.keys)
        rest.old.bytes.now) }
{
    let number = number_behind(first, codes.len())?;
    let code = read_code(alloc, rules, number, rest)?;
    if !codes.insert(code)? {
        return Err(ImageError::BadCode { number });
    }
    Ok(())
}

/// The number behind so many more. No file has as many codes as 64 bits don't count.
fn number_behind(first: usize, many: usize) -> Mem<usize>
    ensures { IfOk result (λ number. number ≡ first + many) }
{
    first.checked_add(many).ok_or(NoMemory)
}
