//! Rules, prepared for the sentences of one file.
//!
//! The readings of a file are in a table, by number. For each rule and reading it is found out once
//! which tests the reading passes; sentences are then told by numbers alone.

ghost use Rattle.std.specs.Prelude.{◌≡◌, ◌<◌, ◌≤◌, ◌^◌, List, All, IfOk, IfSome, OnOk, Some, length, map, slice_get};
ghost use Rattle.std.specs.List.{AllZip};
ghost use Rattle.ux_sentence.specs.declared.sentence.Reading.{Reading as ReadingRecord};
ghost use Rattle.ux_sentence.specs.declared.sentence.Sentence.{Sentence as SentenceRecord};
ghost use Rattle.ux_sentence.specs.Paths.{IsWellFormed};
ghost use Rattle.ux_sentence.specs.Valid.{HasSpellable};
ghost use Rattle.ux_reading_table.specs.Numbered.{AreTexts, IsNumberedBy};
ghost use Rattle.ux_monitor.specs.Parts.{IsProductOf};
ghost use Rattle.ux_elag.specs.Codes.{AreUsable, NotesAgain};
ghost use Rattle.ux_elag.specs.Prepared.{HasText, IsFresh, IsPreparedFor, LeavesNumbered, Notes, parts_in};

use crate::codes_alone::all_ask_codes;
use crate::keeping::{keep, parts_of};
use crate::naming::{ordered_sentence, without_states};
use crate::placing::place_states;
use crate::prepared_rule::PreparedRule;
use crate::ready::ReadyRule;
use std::alloc::Global;
use std::marker::Model;
use ux_base::{Mem, Txt};
use ux_monitor::Product;
use ux_reading_table::{NumberedSentence, ReadingTable};
use ux_sentence::Reading;

/// Rules, prepared for the readings of a table. Contracts see them as the rules and the texts of
/// the readings.
#[derive(Drop)]
pub struct PreparedRules<'a> {
    rules: Vec<PreparedRule>,
    product: Product,
    texts: &'a [Txt],
}

impl<'a> Model for PreparedRules<'a> {
    ghost use Rattle.std.specs.Prelude.{map};
    ghost use Rattle.ux_monitor.specs.Parts.{IsProductOf};
    ghost use Rattle.ux_elag.specs.Prepared.{ArePrepared, Prepared, parts_in};

    ghost Value = { Prepared };

    ghost view = { λ prepared. record {
      rules = map (λ rule. rule.rule) prepared.rules.items;
      texts = prepared.texts.now;
    } };

    ghost invariant = { λ prepared. ArePrepared prepared.texts.now prepared.rules.items
        × IsProductOf (parts_in prepared.rules.items) prepared.product };
}

impl<'a> PreparedRules<'a> {
    /// The rules, prepared for the readings of the table. Each reading is read once, and tried by
    /// each test of each rule; where the tests ask for codes alone, one of those with the same codes
    /// is. Keeps a number for each reading and rule.
    pub fn of(
        alloc: Global,
        rules: Vec<ReadyRule>,
        table: &'a ReadingTable<'_>,
    ) -> Mem<PreparedRules<'a>>
        requires { AreTexts table.now }
        ensures rules { IfOk result (λ prepared. prepared.rules ≡ rules.items) }
        ensures texts { IfOk result (λ prepared. prepared.texts ≡ table.now) }
    {
        let likes = usable_likes(rules.as_slice(), table);
        let mut prepared = without_kinds(alloc, rules)?;
        let texts = table.texts();
        for number in 0..texts.len() {
            note_number(alloc, prepared.as_mut_slice(), table, number, likes)?;
        }
        let product = product_of(alloc, prepared.as_slice(), texts.len(), likes)?;
        Ok(PreparedRules {
            rules: prepared,
            product,
            texts,
        })
    }

    /// What the rules leave of the sentence together: exactly the reading lists that satisfy each of
    /// them, each by one path. Without a rule all are left. No reading is looked at. Takes time in
    /// the links, times a logarithm of their number, and in the steps that the rules take over them;
    /// and memory for the links of two automata.
    pub fn apply(&mut self, alloc: Global, sentence: &NumberedSentence) -> Mem<NumberedSentence>
        requires { (old : SentenceRecord) × IsNumberedBy self.old.texts old sentence.now
            × IsWellFormed old }
        ensures same { self.new ≡ self.old }
        ensures left { IfOk result (λ left. (old : SentenceRecord) →
            IsNumberedBy self.old.texts old sentence.now → All HasSpellable old.links →
            LeavesNumbered self.old old left) }
    {
        if sentence.states == 0 {
            return Ok(without_states(alloc, sentence.number));
        }
        let source = place_states(alloc, sentence)?;
        let kept = keep(alloc, &mut self.product, self.rules.as_mut_slice(), source)?;
        ordered_sentence(alloc, sentence.number, kept, self.texts)
    }

    /// The texts of the readings, by number.
    pub fn texts(&self) -> &[Txt]
        ensures { result.now ≡ self.now.texts }
    {
        self.texts
    }
}

/// The product of the rules, over the readings with the first so many numbers.
fn product_of(alloc: Global, rules: &[PreparedRule], count: usize, likes: &[u32]) -> Mem<Product>
    requires { All (λ part. count ≤ length part.of) (parts_in rules.now) }
    ensures { IfOk result (IsProductOf (parts_in rules.now)) }
{
    let parts = parts_of(alloc, rules)?;
    Product::of(alloc, parts.as_slice(), count, likes)
}

/// Beside each reading one that is of its kind in each of the rules, which is noted at once then.
fn usable_likes<'t>(rules: &[ReadyRule], table: &'t ReadingTable<'_>) -> &'t [u32]
    ensures { AreUsable table.now rules.now result.now }
{
    if all_ask_codes(rules) {
        table.alike()
    } else {
        &[]
    }
}

/// The rules, with no kind yet.
fn without_kinds(alloc: Global, rules: Vec<ReadyRule>) -> Mem<Vec<PreparedRule>>
    ensures { IfOk result (λ prepared. AllZip IsFresh rules.items prepared.items) }
{
    let mut prepared = Vec::new(alloc);
    for rule in rules {
        prepared.push(rule.without_kinds(alloc))?;
    }
    Ok(prepared)
}

/// Adds the kind of the reading with the number to each rule.
fn note_number(
    alloc: Global,
    rules: &mut [PreparedRule],
    table: &ReadingTable<'_>,
    number: usize,
    likes: &[u32],
) -> Mem<()>
    requires inside { number < length table.now }
    requires prepared { All (IsPreparedFor table.now number) rules.old }
    requires likes { AreUsable table.now (map (λ rule. rule.rule) rules.old) likes.now }
    ensures { OnOk result ((reading : ReadingRecord) × HasText table.now number reading
        × AllZip (Notes reading) rules.old rules.new) }
{
    if let Some(like) = earlier(likes, number) {
        return note_like(rules, like);
    }
    let reading = table.reading(alloc, number)?;
    note_reading(alloc, rules, &reading)
}

/// The reading that stands beside the one with the number, if it comes before it.
fn earlier(likes: &[u32], number: usize) -> Option<usize>
    ensures { IfSome result (λ like.
        (slice_get likes.now number ≡ Some like) × (like < number)) }
{
    let like = *likes.get(number)? as usize;
    if like < number {
        return Some(like);
    }
    None
}

/// Adds the kind of the reading to each rule.
fn note_reading(alloc: Global, rules: &mut [PreparedRule], reading: &Reading) -> Mem<()>
    requires { All (λ rule. length rule.rule.steps < 2 ^ 32) rules.old }
    ensures { OnOk result (AllZip (Notes reading.now) rules.old rules.new) }
{
    for index in 0..rules.len() {
        rules[index].note(alloc, reading)?;
    }
    Ok(())
}

/// Adds the kind of the earlier reading to each rule once more.
fn note_like(rules: &mut [PreparedRule], like: usize) -> Mem<()>
    requires { All (λ rule. like < length rule.kinds.items) rules.old }
    ensures { OnOk result (AllZip (NotesAgain like) rules.old rules.new) }
{
    for index in 0..rules.len() {
        rules[index].note_again(like)?;
    }
    Ok(())
}
