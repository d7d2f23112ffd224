//! Values by number, each once.
//!
//! Most sets have a few values. Those are a list, which is looked through for each that may be new.
//! Where it has grown past a few, all are moved into a set, which finds them by their hashes.

ghost use Rattle.std.specs.Prelude.{◌≡◌, ◌<◌, ◌^◌, [], true, IfOk, OnOk, length, position, slice_get};
ghost use Rattle.std.specs.List.{IsDistinct, list_any};
ghost use Rattle.std.specs.Option.{is_some};
ghost use Rattle.indexmap.specs.IndexSet.{insert_key};
ghost use Rattle.ux_folds.specs.Lists.{IsFirstOf};
ghost use Rattle.ux_folds.specs.Numbered.{AreFew, HasNumber, all_of};

use indexmap::IndexSet;
use std::alloc::Global;
use std::hash::Hash;
use std::marker::Model;
use ux_base::Mem;

/// How many stand in a list: to look through more of them takes longer than to hash one.
const FEW: usize = 12;

/// Values in the order of their numbers, each once.
#[derive(Drop)]
pub struct Numbered<T: Eq + Hash> {
    /// All of them, while there are few.
    few: Vec<T>,
    /// All of them, when there are more. While there are few it is empty.
    many: IndexSet<T>,
}

impl<T: Eq + Hash> Model for Numbered<T> {
    ghost use Rattle.ux_folds.specs.Numbered.{AreFew, Values, all_of};

    ghost Value = { Values T };

    ghost view = { λ n. record { keys = all_of n.few.items n.many.keys } };

    ghost invariant = { λ n. AreFew T.eq n.few.items };
}

impl<T: Eq + Hash + Copy + Drop> Numbered<T> {
    /// One in which there is nothing. Takes no memory.
    pub fn new(alloc: Global) -> Numbered<T>
        ensures { result.keys ≡ [] }
    {
        Numbered {
            few: Vec::new(alloc),
            many: IndexSet::new(alloc),
        }
    }

    /// How many there are. No two of them are equal.
    pub fn len(&self) -> usize
        ensures len { result ≡ length self.now.keys }
        ensures small { result < 2 ^ 63 }
        ensures unique { IsDistinct T.eq self.now.keys }
    {
        if self.many.is_empty() {
            self.few.len()
        } else {
            self.many.len()
        }
    }

    /// All of them, in the order of their numbers.
    pub fn as_slice(&self) -> &[T]
        ensures { result.now ≡ self.now.keys }
    {
        if self.many.is_empty() {
            self.few.as_slice()
        } else {
            self.many.as_slice()
        }
    }

    /// The value of a number.
    pub fn get(&self, number: usize) -> Option<T>
        ensures { result ≡ slice_get self.now.keys number }
    {
        self.as_slice().get(number).copied()
    }

    /// The number of the value, if it is there.
    pub fn place_of(&self, value: T) -> Option<usize>
        ensures index { result ≡ position (T.eq value) self.now.keys }
        ensures found { is_some result ≡ list_any (T.eq value) self.now.keys }
    {
        if self.many.is_empty() {
            place_in(self.few.as_slice(), value)
        } else {
            self.many.get_index_of(&value)
        }
    }

    /// The number of the value, which is added behind the others where it is new.
    pub fn number(&mut self, value: T) -> Mem<usize>
        ensures keys { OnOk result (self.new.keys ≡ insert_key T.eq self.old.keys value) }
        ensures stored { IfOk result (HasNumber T.eq self.new.keys value) }
    {
        if self.many.is_empty() && self.few.len() < FEW {
            add_to_few(&mut self.few, value)
        } else {
            add_to_many(&self.few, &mut self.many, value)
        }
    }
}

/// The place of the value in the set, which is a new one where the value is new.
pub fn place<T: Eq + Hash + Copy + Drop>(set: &mut Numbered<T>, value: T) -> Mem<usize>
    requires same { (a b : T) → T.eq a b ≡ true → a ≡ b }
    requires itself { (a : T) → T.eq a a ≡ true }
    ensures { IfOk result (IsFirstOf set.old.keys set.new.keys value) }
{
    let place = set.number(value)?;
    // For the prover: no value stands twice.
    set.len();
    Ok(place)
}

/// The place of a value in a list, if it is there.
fn place_in<T: Eq + Copy>(values: &[T], value: T) -> Option<usize>
    ensures index { result ≡ position (T.eq value) values.now }
    ensures found { is_some result ≡ list_any (T.eq value) values.now }
{
    for place in 0..values.len() {
        if value == values[place] {
            return Some(place);
        }
    }
    None
}

/// The place of a value in a list, to which it is added at the end where it is new.
fn add_to_few<T: Eq + Copy + Drop>(few: &mut Vec<T>, value: T) -> Mem<usize>
    requires are_few { AreFew T.eq few.old.items }
    requires room { length few.old.items < 12 }
    ensures keys { OnOk result (few.new.items ≡ insert_key T.eq few.old.items value) }
    ensures stored { IfOk result (HasNumber T.eq few.new.items value) }
    ensures are_few { AreFew T.eq few.new.items }
{
    if let Some(place) = place_in(few.as_slice(), value) {
        return Ok(place);
    }
    let count = few.len();
    few.push(value)?;
    Ok(count)
}

/// The place of a value in a set, to which it is added at the end where it is new. Moves those of
/// the list there before, while the set is empty.
fn add_to_many<T: Eq + Hash + Copy + Drop>(
    few: &[T],
    many: &mut IndexSet<T>,
    value: T,
) -> Mem<usize>
    requires distinct { IsDistinct T.eq few.now }
    ensures keys { OnOk result (all_of few.now many.new.keys
        ≡ insert_key T.eq (all_of few.now many.old.keys) value) }
    ensures stored { IfOk result (HasNumber T.eq (all_of few.now many.new.keys) value) }
{
    if many.is_empty() {
        move_few(few, many)?;
    }
    add(many, value)
}

/// Puts all of a list into an empty set.
fn move_few<T: Eq + Hash + Copy + Drop>(few: &[T], many: &mut IndexSet<T>) -> Mem<()>
    requires distinct { IsDistinct T.eq few.now }
    requires empty { many.old.keys ≡ [] }
    ensures { OnOk result (many.new.keys ≡ few.now) }
{
    for value in few {
        many.insert(*value)?;
    }
    Ok(())
}

/// The place of a value in a set, to which it is added at the end where it is new.
fn add<T: Eq + Hash + Drop>(many: &mut IndexSet<T>, value: T) -> Mem<usize>
    ensures keys { OnOk result (many.new.keys ≡ insert_key T.eq many.old.keys value) }
    ensures stored { IfOk result (HasNumber T.eq many.new.keys value) }
{
    let (place, _) = many.insert_full(value)?;
    Ok(place)
}
