//! Lists that share their tails.
//!
//! A list is named by a number: 0 is the empty list, and n + 1 the list that begins with link n.
//! Equal links are one, so equal lists have equal numbers.

ghost use Rattle.std.specs.Prelude.{◌≡◌, ℕ, List, [], true, IfOk, OnErr, option_copied, reverse};
ghost use Rattle.ux_walk.specs.Links.{AreBelow, AreOnce, IsAppended, IsConsed, Names, link_at};

use crate::sets::stand_once;
use indexmap::IndexSet;
use std::alloc::Global;
use std::hash::Hash;
use ux_base::Mem;

/// The head of a list, and the number of its tail.
#[derive(Clone, Copy, PartialEq, Eq, Hash)]
pub struct Link<T> {
    /// The first element.
    pub head: T,
    /// The number of the list of the others.
    pub tail: usize,
}

/// The lists, by their links.
#[derive(Drop)]
pub struct Lists<T: Eq + Hash> {
    links: IndexSet<Link<T>>,
}

impl<T: Eq + Hash + Copy + Drop> Lists<T> {
    /// The empty list alone. Takes no memory.
    pub fn new(alloc: Global) -> Lists<T>
        ensures { result.links.keys ≡ [] }
    {
        Lists {
            links: IndexSet::new(alloc),
        }
    }

    /// The number of the list with this head and this tail.
    pub fn cons(&mut self, head: T, tail: usize) -> Mem<usize>
        requires { (a b : T) → T.eq a b ≡ true → a ≡ b }
        ensures { IfOk result
            (IsConsed self.old.links.keys self.new.links.keys head tail) }
    {
        self.add(head, tail)
    }

    /// The same. Where memory runs out, the lists stay as they were.
    pub fn add(&mut self, head: T, tail: usize) -> Mem<usize>
        requires { (a b : T) → T.eq a b ≡ true → a ≡ b }
        ensures consed { IfOk result
            (IsConsed self.old.links.keys self.new.links.keys head tail) }
        ensures kept { OnErr result (self.new.links.keys ≡ self.old.links.keys) }
    {
        let (index, _) = self.links.insert_full(Link { head, tail })?;
        self.links.len();
        Ok(index + 1)
    }

    /// The number of the list that has the elements of the later list, and behind them those of the
    /// earlier one.
    pub fn append(&mut self, alloc: Global, earlier: usize, later: usize) -> Mem<usize>
        requires { (a b : T) → T.eq a b ≡ true → a ≡ b }
        ensures { IfOk result (λ number. AreBelow self.old.links.keys →
            IsAppended self.old.links.keys self.new.links.keys earlier later number) }
    {
        let items = self.listed(alloc, later)?;
        let mut number = earlier;
        for item in items.as_slice() {
            number = self.cons(*item, number)?;
        }
        Ok(number)
    }

    /// The elements of a list in reverse order.
    pub fn spell(&self, alloc: Global, number: usize) -> Mem<Vec<T>>
        requires { AreBelow self.now.links.keys }
        ensures { IfOk result (λ items. (xs : List T) → Names self.now.links.keys number xs →
            items.items ≡ reverse xs) }
    {
        self.listed(alloc, number)
    }

    /// The same, where nothing is known of the number.
    pub fn listed(&self, alloc: Global, number: usize) -> Mem<Vec<T>>
        ensures { IfOk result (λ items. (xs : List T) → AreBelow self.now.links.keys →
            Names self.now.links.keys number xs → items.items ≡ reverse xs) }
    {
        let mut items = Vec::new(alloc);
        let mut rest = number;
        while let Some(link) = self.link(rest) {
            if rest <= link.tail {
                return Ok(items);
            }
            items.push(link.head)?;
            rest = link.tail;
        }
        items.reverse();
        Ok(items)
    }

    /// No link stands twice.
    pub fn links_stand_once(&self)
        requires { (a : T) → T.eq a a ≡ true }
        ensures { AreOnce self.now.links.keys }
    {
        stand_once(&self.links);
    }

    /// The first link of a list, if it isn't empty.
    pub fn link(&self, number: usize) -> Option<&Link<T>>
        ensures { option_copied result ≡ link_at self.now.links.keys number }
    {
        self.links.get_index(number.checked_sub(1)?)
    }
}
