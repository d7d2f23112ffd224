//! What is kept of each visit: values in groups, each once in its group.
//!
//! A group is named by the number of its visit. Its values are listed, so that going over them
//! costs as many steps as they are, however many other groups there are.

ghost use Rattle.std.specs.Prelude.{◌≡◌, ◌↔◌, true, Contains, IfOk, OnOk, get_or};
ghost use Rattle.ux_walk.specs.Groups.{AreGrouped, IsIn, IsMore, IsNoMember, IsPutIn};

use crate::lists::Lists;
use crate::sets::add;
use indexmap::IndexSet;
use std::alloc::Global;
use std::hash::Hash;
use ux_base::Mem;

/// A value of a group.
#[derive(Clone, Copy, PartialEq, Eq, Hash)]
pub struct Member<T> {
    /// The number of the group.
    pub group: usize,
    /// The value.
    pub value: T,
}

/// Values in groups.
#[derive(Drop)]
pub struct Groups<T: Eq + Hash> {
    members: IndexSet<Member<T>>,
    lists: Lists<T>,
    /// By group, the number of the list of its values, latest first. A group behind the last has
    /// none.
    latest: Vec<usize>,
}

impl<T: Eq + Hash + Copy + Drop> Groups<T> {
    /// No group has a value. Takes no memory.
    pub fn new(alloc: Global) -> Groups<T>
        ensures grouped { AreGrouped result }
        ensures nothing { IsNoMember result }
    {
        Groups {
            members: IndexSet::new(alloc),
            lists: Lists::new(alloc),
            latest: Vec::new(alloc),
        }
    }

    /// Adds a value to a group. Whether it is new there.
    pub fn add(&mut self, group: usize, value: T) -> Mem<bool>
        requires { (a b : T) → T.eq a b ≡ true → a ≡ b }
        ensures { IfOk result (λ is_new. AreGrouped self.old →
            IsMore self.old self.new group value is_new) }
    {
        if !add(&mut self.members, Member { group, value })? {
            return Ok(false);
        }
        let tail = self.list(group);
        let number = self.lists.cons(value, tail)?;
        put_in(&mut self.latest, group, number)?;
        Ok(true)
    }

    /// The values of a group.
    pub fn of(&self, alloc: Global, group: usize) -> Mem<Vec<T>>
        ensures { IfOk result (λ values. AreGrouped self.now → (v : T) →
            Contains values.items v ↔ IsIn self.now group v) }
    {
        self.lists.listed(alloc, self.list(group))
    }

    /// The number of the list of a group.
    fn list(&self, group: usize) -> usize
        ensures { result ≡ get_or self.now.latest.items group 0 }
    {
        match self.latest.get(group) {
            Some(number) => *number,
            None => 0,
        }
    }
}

/// Puts a number at a place of a list in which all further ones are 0.
fn put_in(numbers: &mut Vec<usize>, place: usize, number: usize) -> Mem<()>
    ensures { OnOk result (IsPutIn numbers.old.items numbers.new.items place number) }
{
    while numbers.len() <= place {
        numbers.push(0)?;
    }
    numbers[place] = number;
    Ok(())
}
