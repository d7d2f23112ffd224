//! Reading a code: its pairs, and its printed codes.

ghost use Rattle.std.specs.Prelude.{◌≡◌, ◌↔◌, ◌<◌, IfErr, IfOk, IsTrue};
ghost use Rattle.ux_image_lists.specs.Fields.{each, number, tested, Stops};
ghost use Rattle.ux_image_lists.specs.Lists.{code, pair, pairs, pairs_by, text, ArePrinted, MayAdd, MayTake};
ghost use Rattle.ux_image_reader.specs.declared.error.ImageError.TheVariants.{BadCode};
ghost use Rattle.ux_image_reader.specs.declared.front.Version.TheVariants.{One, Two};

use crate::rest::{Rest, read_number, read_text};
use std::alloc::Global;
use ux_base::{Mem, Txt};
use ux_dawg::Items;
use ux_dela::read_codes;
use ux_image::{Code, Pair};
use ux_image_reader::{ImageError, Version};

/// By what the codes of a list are read.
#[derive(Clone, Copy)]
pub struct Rules {
    /// The version of the file.
    pub version: Version,
    /// How many characters the shortest form with the list has.
    pub shortest: usize,
}

/// Reads the code of this number.
pub(crate) fn read_code(
    alloc: Global,
    rules: Rules,
    number: usize,
    rest: &mut Rest<'_>,
) -> Result<Code, ImageError>
    ensures ok { IfOk result (λ c.
        (code rules number).Begins rest.old.bytes.now c rest.new.bytes.now) }
    ensures err { IfErr result (Stops (code rules number) rest.old.bytes.now) }
{
    let pairs = read_pairs(alloc, rules, number, rest)?;
    let codes = read_printed(alloc, number, rest)?;
    Ok(Code { pairs, codes })
}

/// Reads how many there are: one at least.
pub(crate) fn read_count(code: usize, rest: &mut Rest<'_>) -> Result<u32, ImageError>
    ensures ok { IfOk result (λ many. (tested number (λ n. 0 < n) (BadCode code)).Begins
        rest.old.bytes.now many rest.new.bytes.now) }
    ensures err { IfErr result ((tested number (λ n. 0 < n) (BadCode code)).Refuses
        rest.old.bytes.now) }
{
    let many = read_number(rest)?;
    if many == 0 {
        return Err(ImageError::BadCode { number: code });
    }
    Ok(many)
}

/// Reads the pairs of the code of this number.
fn read_pairs(
    alloc: Global,
    rules: Rules,
    code: usize,
    rest: &mut Rest<'_>,
) -> Result<Items<Pair>, ImageError>
    ensures ok { IfOk result (λ all.
        (pairs rules code).Begins rest.old.bytes.now all rest.new.bytes.now) }
    ensures err { IfErr result (Stops (pairs rules code) rest.old.bytes.now) }
{
    match rules.version {
        Version::One => read_one_pair(alloc, rules, code, rest),
        Version::Two => read_counted_pairs(alloc, rules, code, rest),
    }
}

/// Reads the only pair of a code.
fn read_one_pair(
    alloc: Global,
    rules: Rules,
    code: usize,
    rest: &mut Rest<'_>,
) -> Result<Items<Pair>, ImageError>
    ensures ok { IfOk result (λ all.
        (pairs_by One rules code).Begins rest.old.bytes.now all rest.new.bytes.now) }
    ensures err { IfErr result (Stops (pairs_by One rules code) rest.old.bytes.now) }
{
    let pair = read_pair(alloc, rules, code, rest)?;
    let mut pairs = Items::empty(alloc);
    pairs.push(pair)?;
    Ok(pairs)
}

/// Reads how many pairs a code has, and each of them.
fn read_counted_pairs(
    alloc: Global,
    rules: Rules,
    code: usize,
    rest: &mut Rest<'_>,
) -> Result<Items<Pair>, ImageError>
    ensures ok { IfOk result (λ all.
        (pairs_by Two rules code).Begins rest.old.bytes.now all rest.new.bytes.now) }
    ensures err { IfErr result (Stops (pairs_by Two rules code) rest.old.bytes.now) }
{
    let many = read_count(code, rest)?;
    read_each_pair(alloc, rules, code, many, rest)
}

/// Reads so many pairs.
fn read_each_pair(
    alloc: Global,
    rules: Rules,
    code: usize,
    many: u32,
    rest: &mut Rest<'_>,
) -> Result<Items<Pair>, ImageError>
    ensures ok { IfOk result (λ all. (each many (λ before. pair rules code)).Begins
        rest.old.bytes.now all rest.new.bytes.now) }
    ensures err { IfErr result (Stops (each many (λ before. pair rules code))
        rest.old.bytes.now) }
{
    let mut pairs = Items::empty(alloc);
    for _ in 0..many {
        let pair = read_pair(alloc, rules, code, rest)?;
        pairs.push(pair)?;
    }
    Ok(pairs)
}

/// Reads a pair of the code of this number.
fn read_pair(
    alloc: Global,
    rules: Rules,
    code: usize,
    rest: &mut Rest<'_>,
) -> Result<Pair, ImageError>
    ensures ok { IfOk result (λ p.
        (pair rules code).Begins rest.old.bytes.now p rest.new.bytes.now) }
    ensures err { IfErr result (Stops (pair rules code) rest.old.bytes.now) }
{
    let taken = read_taken(rules, code, rest)?;
    let many = read_length(rules, taken, code, rest)?;
    let added = read_text(alloc, many, code, rest)?;
    Ok(Pair { taken, added })
}

/// Reads how many characters are taken off.
fn read_taken(rules: Rules, code: usize, rest: &mut Rest<'_>) -> Result<u32, ImageError>
    ensures ok { IfOk result (λ taken. (tested number (MayTake rules) (BadCode code)).Begins
        rest.old.bytes.now taken rest.new.bytes.now) }
    ensures err { IfErr result ((tested number (MayTake rules) (BadCode code)).Refuses
        rest.old.bytes.now) }
{
    let taken = read_number(rest)?;
    if !may_take(rules, taken) {
        return Err(ImageError::BadCode { number: code });
    }
    Ok(taken)
}

/// Reads how long the text is that is added where so many characters are taken off.
fn read_length(
    rules: Rules,
    taken: u32,
    code: usize,
    rest: &mut Rest<'_>,
) -> Result<u32, ImageError>
    ensures ok { IfOk result (λ many. (tested number (MayAdd rules taken) (BadCode code)).Begins
        rest.old.bytes.now many rest.new.bytes.now) }
    ensures err { IfErr result ((tested number (MayAdd rules taken) (BadCode code)).Refuses
        rest.old.bytes.now) }
{
    let many = read_number(rest)?;
    if !may_add(rules, taken, many) {
        return Err(ImageError::BadCode { number: code });
    }
    Ok(many)
}

/// Whether so many characters may be taken off.
fn may_take(rules: Rules, taken: u32) -> bool
    ensures { IsTrue result ↔ MayTake rules taken }
{
    match rules.version {
        Version::One => taken as usize <= rules.shortest,
        Version::Two => true,
    }
}

/// Whether a text of so many bytes may be added where so many characters are taken off.
fn may_add(rules: Rules, taken: u32, many: u32) -> bool
    ensures { IsTrue result ↔ MayAdd rules taken many }
{
    match rules.version {
        Version::One => taken as usize != rules.shortest || many != 0,
        Version::Two => true,
    }
}

/// Reads the printed codes of the code of this number.
fn read_printed(alloc: Global, code: usize, rest: &mut Rest<'_>) -> Result<Txt, ImageError>
    ensures ok { IfOk result (λ printed. (tested (text code) ArePrinted (BadCode code)).Begins
        rest.old.bytes.now printed rest.new.bytes.now) }
    ensures err { IfErr result (Stops (tested (text code) ArePrinted (BadCode code))
        rest.old.bytes.now) }
{
    let many = read_number(rest)?;
    let printed = read_text(alloc, many, code, rest)?;
    if !are_printed(alloc, printed.as_str())? {
        return Err(ImageError::BadCode { number: code });
    }
    Ok(printed)
}

/// Whether the text is what is printed for some codes.
fn are_printed(alloc: Global, text: &str) -> Mem<bool>
    ensures { IfOk result (λ are. IsTrue are ↔ ArePrinted text.now) }
{
    match read_codes(alloc, text)? {
        Some(_) => Ok(true),
        None => Ok(false),
    }
}
