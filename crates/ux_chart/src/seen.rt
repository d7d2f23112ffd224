//! What a search has seen.
//!
//! Most searches see two or three configurations. Those are a list, which is looked through for
//! each that may be new. Where it has grown past a few, all are moved into a set, which finds them
//! by their hashes.

ghost use Rattle.std.specs.Prelude.{◌≡◌, ℕ, ◌≤◌, ◌↔◌, ◌++◌, List, [], ◌∷◌, length, Contains, OnOk, true};
ghost use Rattle.std.specs.List.{AllPairs};
ghost use Rattle.ux_chart.specs.Search.{Adds, seen_in, HasNoDoubles};
ghost use Rattle.ux_chart.specs.declared.config.Config.{Config};

use crate::config::Config;
use indexmap::IndexSet;
use std::alloc::Global;
use std::hash::Hash;
use std::marker::Model;
use ux_base::Mem;

/// How many stand in a list: to look through more of them takes longer than to hash one.
const FEW: usize = 8;

/// How many may have stood in a set for it to be cleared: to clear a larger one takes longer than to
/// make a new one.
const SMALL: usize = 64;

/// Configurations in the order in which they were seen first, each once.
#[derive(Drop)]
pub struct Seen {
    /// All of them, while there are few.
    few: Vec<Config>,
    /// All of them, when there are more. While there are few it is empty.
    many: IndexSet<Config>,
}

impl Model for Seen {
    ghost use Rattle.std.specs.Prelude.{List};
    ghost use Rattle.ux_chart.specs.Search.{seen_in, HasNoDoubles};
    ghost use Rattle.ux_chart.specs.declared.config.Config.{Config};

    ghost Value = { List Config };

    ghost view = { λ s. seen_in s.few.items s.many.keys };

    ghost invariant = { λ s. HasNoDoubles s.few.items };
}

impl Seen {
    /// One in which there is nothing. Takes no memory.
    pub fn new(alloc: Global) -> Seen
        ensures { result ≡ [] }
    {
        Seen {
            few: Vec::new(alloc),
            many: IndexSet::new(alloc),
        }
    }

    /// Empties it. What a small search needs doesn't grow by a large one before.
    pub fn clear(&mut self, alloc: Global)
        ensures { self.new ≡ [] }
    {
        self.few.clear();
        if !self.many.is_empty() {
            empty(alloc, &mut self.many);
        }
    }

    /// How many there are.
    pub fn len(&self) -> usize
        ensures { result ≡ length self.now }
    {
        self.as_slice().len()
    }

    /// All of them.
    pub fn as_slice(&self) -> &[Config]
        ensures { result.now ≡ self.now }
    {
        if self.many.is_empty() {
            self.few.as_slice()
        } else {
            self.many.as_slice()
        }
    }

    /// Adds each that is new, at the end.
    pub fn add_all(&mut self, found: &[Config]) -> Mem<()>
        ensures { OnOk result (Adds self.old found.now self.new) }
    {
        for config in found {
            self.add(*config)?;
        }
        Ok(())
    }

    /// Adds the configuration at the end, if it is new.
    fn add(&mut self, config: Config) -> Mem<()>
        ensures { OnOk result (Adds self.old (config ∷ []) self.new) }
    {
        if self.many.is_empty() && self.few.len() < FEW {
            add_to_few(&mut self.few, config)?;
        } else {
            add_to_many(&self.few, &mut self.many, config)?;
        }
        Ok(())
    }

    /// No configuration stands twice, so there are no more than in a list of all.
    pub fn is_bounded(&self)
        ensures { (all : List Config) → ((x : Config) → Contains self.now x → Contains all x) →
            length self.now ≤ length all }
    {
        if self.many.is_empty() {
            are_bounded(&self.few);
        } else {
            is_set_bounded(&self.many);
        }
    }
}

/// Empties a set.
fn empty<T: Eq + Hash + Drop>(alloc: Global, set: &mut IndexSet<T>)
    ensures { set.new.keys ≡ [] }
{
    if set.len() > SMALL {
        *set = IndexSet::new(alloc);
    } else {
        set.clear();
    }
}

/// Adds the item at the end of the list, if it is new.
fn add_to_few<T: Eq + Drop>(few: &mut Vec<T>, item: T) -> Mem<()>
    requires exact { (a b : T) → (T.eq a b ≡ true) ↔ (a ≡ b) }
    requires distinct { HasNoDoubles few.old.items }
    ensures adds { OnOk result (Adds few.old.items (item ∷ []) few.new.items) }
    ensures distinct { HasNoDoubles few.new.items }
{
    if few.contains(&item) {
        return Ok(());
    }
    few.push(item)?;
    Ok(())
}

/// Adds the item at the end of the set, if it is new. Moves those of the list there before, while
/// the set is empty.
fn add_to_many<T: Eq + Hash + Copy + Drop>(few: &[T], many: &mut IndexSet<T>, item: T) -> Mem<()>
    requires exact { (a b : T) → (T.eq a b ≡ true) ↔ (a ≡ b) }
    requires distinct { HasNoDoubles few.now }
    ensures { OnOk result (Adds (seen_in few.now many.old.keys) (item ∷ [])
        (seen_in few.now many.new.keys)) }
{
    if many.is_empty() {
        move_few(few, many)?;
    }
    add(many, item)?;
    Ok(())
}

/// Puts all of a list into an empty set.
fn move_few<T: Eq + Hash + Copy + Drop>(few: &[T], many: &mut IndexSet<T>) -> Mem<()>
    requires exact { (a b : T) → (T.eq a b ≡ true) ↔ (a ≡ b) }
    requires distinct { HasNoDoubles few.now }
    requires empty { many.old.keys ≡ [] }
    ensures { OnOk result (many.new.keys ≡ few.now) }
{
    for item in few {
        many.insert(*item)?;
    }
    Ok(())
}

/// Adds the item to a set, if it is new.
fn add<T: Eq + Hash + Drop>(set: &mut IndexSet<T>, item: T) -> Mem<()>
    requires { (a b : T) → (T.eq a b ≡ true) ↔ (a ≡ b) }
    ensures { OnOk result (Adds set.old.keys (item ∷ []) set.new.keys) }
{
    set.insert(item)?;
    Ok(())
}

/// Of a list in which no item stands twice there are no more than of a list of all. The contract
/// alone is wanted: there is nothing to do.
fn are_bounded<T: Eq>(few: &[T])
    requires exact { (a b : T) → (T.eq a b ≡ true) ↔ (a ≡ b) }
    requires distinct { HasNoDoubles few.now }
    ensures { (all : List T) → ((x : T) → Contains few.now x → Contains all x) →
        length few.now ≤ length all }
{}

/// The same of a set.
fn is_set_bounded<T: Eq + Hash>(many: &IndexSet<T>)
    requires { (a b : T) → (T.eq a b ≡ true) ↔ (a ≡ b) }
    ensures { (all : List T) → ((x : T) → Contains many.now.keys x → Contains all x) →
        length many.now.keys ≤ length all }
{
    many.len();
}
