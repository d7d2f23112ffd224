//! Values in groups, by number and by key.
//!
//! The values of a group are listed, so that going over them costs as many steps as they are,
//! however many other groups there are. A value is to be added to a group once.

ghost use Rattle.std.specs.Prelude.{◌≡◌, ◌↔◌, ℕ, true, Contains, IfOk, OnOk, get_or};
ghost use Rattle.ux_listing.specs.Groups.{AreGrouped, AreKeyed, IsAt, IsIn, IsMore, IsMoreAt, IsPutIn};

use crate::sets::{number, place_of, stand_once};
use std::alloc::Global;
use std::hash::Hash;
use ux_base::Mem;
use ux_folds::lists::Lists;
use ux_folds::numbered::Numbered;

/// Values in groups by number.
#[derive(Drop)]
pub struct Groups<T: Eq + Hash> {
    lists: Lists<T>,
    /// By group, the number of the list of its values. A group behind the last has none.
    latest: Vec<usize>,
}

impl<T: Eq + Hash + Copy + Drop> Groups<T> {
    /// No group has a value. Takes no memory.
    pub fn new(alloc: Global) -> Groups<T>
        ensures grouped { AreGrouped result }
        ensures nothing { (n : ℕ) (v : T) → IsIn result n v → ⊥ }
    {
        Groups {
            lists: Lists::new(alloc),
            latest: Vec::new(alloc),
        }
    }

    /// Adds a value to a group.
    pub fn add(&mut self, group: usize, value: T) -> Mem<()>
        requires same { (a b : T) → T.eq a b ≡ true → a ≡ b }
        requires itself { (a : T) → T.eq a a ≡ true }
        ensures { OnOk result (AreGrouped self.old → IsMore self.old self.new group value) }
    {
        let front = self.list(group);
        let longer = self.lists.push(front, value)?;
        put_in(&mut self.latest, group, longer)
    }

    /// The values of a group.
    pub fn of(&self, alloc: Global, group: usize) -> Mem<Vec<T>>
        ensures { IfOk result (λ values. AreGrouped self.now → (v : T) →
            Contains values.items v ↔ IsIn self.now group v) }
    {
        self.lists.items(alloc, self.list(group))
    }

    /// The number of the list of a group.
    fn list(&self, group: usize) -> usize
        ensures { result ≡ get_or self.now.latest.items group 0 }
    {
        match self.latest.get(group) {
            Some(number) => *number,
            None => 0,
        }
    }
}

/// Puts a number at a place of a list in which all further ones are 0.
fn put_in(numbers: &mut Vec<usize>, place: usize, number: usize) -> Mem<()>
    ensures { OnOk result (IsPutIn numbers.old.items numbers.new.items place number) }
{
    while numbers.len() <= place {
        numbers.push(0)?;
    }
    numbers[place] = number;
    Ok(())
}

/// Values in groups by key.
#[derive(Drop)]
pub struct Keyed<K: Eq + Hash, T: Eq + Hash> {
    /// The keys. The number of a key is that of its group.
    keys: Numbered<K>,
    groups: Groups<T>,
}

impl<K: Eq + Hash + Copy + Drop, T: Eq + Hash + Copy + Drop> Keyed<K, T> {
    /// No key has a value. Takes no memory.
    pub fn new(alloc: Global) -> Keyed<K, T>
        ensures keyed { AreKeyed result }
        ensures nothing { (key : K) (v : T) → IsAt result key v → ⊥ }
    {
        Keyed {
            keys: Numbered::new(alloc),
            groups: Groups::new(alloc),
        }
    }

    /// Adds a value to the group of a key.
    pub fn add(&mut self, key: K, value: T) -> Mem<()>
        requires same_key { (a b : K) → K.eq a b ≡ true → a ≡ b }
        requires key_itself { (a : K) → K.eq a a ≡ true }
        requires same { (a b : T) → T.eq a b ≡ true → a ≡ b }
        requires itself { (a : T) → T.eq a a ≡ true }
        ensures { OnOk result (AreKeyed self.old → IsMoreAt self.old self.new key value) }
    {
        let group = number(&mut self.keys, key)?;
        stand_once(&self.keys);
        self.groups.add(group, value)
    }

    /// The values of the group of a key.
    pub fn of(&self, alloc: Global, key: K) -> Mem<Vec<T>>
        requires same_key { (a b : K) → K.eq a b ≡ true → a ≡ b }
        requires key_itself { (a : K) → K.eq a a ≡ true }
        ensures { IfOk result (λ values. AreKeyed self.now → (v : T) →
            Contains values.items v ↔ IsAt self.now key v) }
    {
        match place_of(&self.keys, key) {
            Some(group) => self.groups.of(alloc, group),
            None => Ok(Vec::new(alloc)),
        }
    }
}
