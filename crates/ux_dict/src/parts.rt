//! Parts of a dictionary: entries next to each other whose forms begin with the same characters.
//!
//! Entries are in order of form, so that those whose forms go on with a text stand next to each
//! other as well. They are found by binary searches: through the keys, which leave few forms, and
//! then through these.

ghost use Rattle.std.specs.Prelude.{◌≡◌, ◌==◌, ◌<◌, ◌≤◌, IsTrue, List, [], ℕ, AllPairs, filter, bytes_eq, take, drop, get_or, length, encode_utf8_all};
ghost use Rattle.std.specs.List.Sorted.{IsNonDecreasingBy, IsPartitionedBy};
ghost use Rattle.std.specs.Ordering.{ordering_index, nat_cmp};
ghost use Rattle.std.specs.Cmp.Lexicographic.{slice_cmp};
ghost use Rattle.ux_dict.specs.Content.{IsUpTo};
ghost use Rattle.ux_dict.specs.Keys.{key_of, key_rank, is_between};
ghost use Rattle.ux_dict.specs.Parts.{rank_of, next_rank, goes_on, ends_by, IsKeyed, IsPart, IsSifted, IsNarrowed};

use crate::keys::{highest, lowest, rank_between};
use crate::stored::Stored;
use std::cmp::Ordering;

/// Entries whose forms begin with the same bytes.
#[derive(Clone, Copy)]
pub struct Part<'a> {
    /// The entries, in order of form.
    pub entries: &'a [Stored],
    /// The key of each.
    pub keys: &'a [u64],
    /// How many bytes their forms have in common.
    pub len: usize,
}

/// The entries whose forms go on with these bytes behind those that they have in common.
pub(crate) fn going_on<'a>(part: &Part<'a>, more: &[u8]) -> Part<'a>
    ensures { (front : List ℕ) → IsPart front part.now →
        IsSifted (goes_on part.now.len more.now) part.now result }
{
    let few = narrowed(part, more);
    sifted(&few, more)
}

/// The entries whose keys leave it open that their forms go on with these bytes.
fn narrowed<'a>(part: &Part<'a>, more: &[u8]) -> Part<'a>
    ensures { (front : List ℕ) → IsPart front part.now →
        IsNarrowed front (goes_on part.now.len more.now) part.now result }
{
    let front = common(part);
    between(part, lowest(front, more), highest(front, more))
}

/// The bytes that the forms have in common, or none where there is no form.
fn common<'a>(part: &Part<'a>) -> &'a [u8]
    ensures { (front : List ℕ) → IsPart front part.now → 0 < length part.now.entries.now →
        result.now ≡ encode_utf8_all front }
{
    match part.entries.first() {
        Some(entry) => front_of(entry, part.len),
        None => &[],
    }
}

/// The entries whose keys lie between the two.
fn between<'a>(part: &Part<'a>, low: u64, high: u64) -> Part<'a>
    ensures { IsNonDecreasingBy key_of part.now.entries.now → IsKeyed part.now →
        IsSifted (is_between low high) part.now result }
{
    let start = part
        .keys
        .partition_point(|key| rank_between(*key, low, high) < 1);
    let rest = behind(part.keys, start);
    let few = front(rest, reach(rest, low, high));
    let count = few.partition_point(|key| rank_between(*key, low, high) < 2);
    cut(part, start, count)
}

/// A place behind which all keys are above the others. Few keys lie between, so that it is searched
/// from the front.
fn reach(keys: &[u64], low: u64, high: u64) -> usize
    ensures { result < length keys.now → 2 ≤ key_rank low high (get_or keys.now result 0) }
{
    let mut place = 1;
    while place < keys.len() && rank_between(keys[place], low, high) < 2 {
        place = place.saturating_mul(2);
    }
    place
}

/// The entries whose forms go on with these bytes behind those that they have in common. Mostly all
/// do, where keys left few.
fn sifted<'a>(part: &Part<'a>, more: &[u8]) -> Part<'a>
    ensures { IsNonDecreasingBy (next_rank part.now.len more.now) part.now.entries.now →
        IsKeyed part.now → IsSifted (goes_on part.now.len more.now) part.now result }
{
    if all_go_on(part, more) {
        return *part;
    }
    searched(part, more)
}

/// Whether the forms of the first entry and of the last one go on with these bytes, and so the
/// forms between them.
fn all_go_on(part: &Part<'_>, more: &[u8]) -> bool
    ensures { IsTrue result →
        IsNonDecreasingBy (next_rank part.now.len more.now) part.now.entries.now →
        filter (goes_on part.now.len more.now) part.now.entries.now ≡ part.now.entries.now }
{
    let (Some(first), Some(last)) = (part.entries.first(), part.entries.last()) else {
        return false;
    };
    form_goes_on(first, part.len, more) && form_goes_on(last, part.len, more)
}

fn form_goes_on(entry: &Stored, len: usize, more: &[u8]) -> bool
    ensures { result ≡ goes_on len more.now entry.now }
{
    rank(rest_of(entry, len), more) == 1
}

/// The entries whose forms go on with these bytes behind those that they have in common.
fn searched<'a>(part: &Part<'a>, more: &[u8]) -> Part<'a>
    ensures { IsNonDecreasingBy (next_rank part.now.len more.now) part.now.entries.now →
        IsKeyed part.now → IsSifted (goes_on part.now.len more.now) part.now result }
{
    let start = part
        .entries
        .partition_point(|entry| rank(rest_of(entry, part.len), more) < 1);
    let rest = behind(part.entries, start);
    let count = rest.partition_point(|entry| rank(rest_of(entry, part.len), more) < 2);
    cut(part, start, count)
}

/// The entries from a place on, of the number at most.
fn cut<'a>(part: &Part<'a>, start: usize, count: usize) -> Part<'a>
    ensures entries { result.entries.now ≡ take count (drop start part.now.entries.now) }
    ensures keys { result.keys.now ≡ take count (drop start part.now.keys.now) }
    ensures len { result.len ≡ part.now.len }
{
    Part {
        entries: front(behind(part.entries, start), count),
        keys: front(behind(part.keys, start), count),
        len: part.len,
    }
}

/// What stands from a place on.
fn behind<T>(items: &[T], start: usize) -> &[T]
    ensures { result.now ≡ drop start items.now }
{
    if start > items.len() {
        return &[];
    }
    &items[start..]
}

/// The first few.
fn front<T>(items: &[T], count: usize) -> &[T]
    ensures { result.now ≡ take count items.now }
{
    if count > items.len() {
        return items;
    }
    &items[..count]
}

/// The entries whose forms end where the bytes do that they have in common.
pub(crate) fn ending<'a>(entries: &'a [Stored], len: usize) -> &'a [Stored]
    ensures { IsPartitionedBy (ends_by len) entries.now →
        result.now ≡ filter (ends_by len) entries.now }
{
    let end = entries.partition_point(|entry| form_len(entry) <= len);
    &entries[..end]
}

/// The entries of this form.
pub(crate) fn of_form<'a>(whole: &Part<'a>, form: &str) -> &'a [Stored]
    requires { IsPart [] whole.now }
    ensures { result.now ≡ filter (λ entry. bytes_eq entry.form form.now) whole.now.entries.now }
{
    let key = lowest(form.as_bytes(), &[]);
    same_form(between(whole, key, key).entries, form)
}

/// The entries of this form.
fn same_form<'a>(entries: &'a [Stored], form: &str) -> &'a [Stored]
    ensures { AllPairs IsUpTo entries.now →
        result.now ≡ filter (λ entry. bytes_eq entry.form form.now) entries.now }
{
    let start = entries.partition_point(|entry| place(entry.form(), form) < 1);
    let rest = &entries[start..];
    let end = rest.partition_point(|entry| place(entry.form(), form) < 2);
    &rest[..end]
}

/// The length of the form in bytes.
pub(crate) fn form_len(entry: &Stored) -> usize
    ensures { result ≡ length entry.now.form }
{
    entry.form().len()
}

/// The first few bytes of the form.
fn front_of(entry: &Stored, len: usize) -> &[u8]
    ensures { result.now ≡ take len entry.now.form }
{
    front(entry.form().as_bytes(), len)
}

/// The form behind its first few bytes.
fn rest_of(entry: &Stored, len: usize) -> &[u8]
    ensures { result.now ≡ drop len entry.now.form }
{
    behind(entry.form().as_bytes(), len)
}

/// 0, 1 or 2 where the text is below, equal to or above the letter, as far as the letter goes.
fn rank(text: &[u8], letter: &[u8]) -> usize
    ensures { result ≡ rank_of letter.now text.now }
{
    let front = &text[..letter.len().min(text.len())];
    index_of(front.cmp(&letter))
}

/// 0, 1 or 2 where the form is below, equal to or above the other one.
fn place(form: &str, other: &str) -> usize
    ensures { result ≡ ordering_index (slice_cmp nat_cmp form.now other.now) }
{
    index_of(form.cmp(&other))
}

fn index_of(order: Ordering) -> usize
    ensures { result ≡ ordering_index order }
{
    match order {
        Ordering::Less => 0,
        Ordering::Equal => 1,
        Ordering::Greater => 2,
    }
}
