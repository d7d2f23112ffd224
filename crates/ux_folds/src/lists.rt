//! Lists that share their fronts, each named by a number.
//!
//! 0 is the empty list, and n + 1 the list whose last element is that of link n. Equal links are
//! one, so equal lists have equal numbers.

ghost use Rattle.std.specs.Prelude.{◌≡◌, ◌++◌, ◌∷◌, [], List, true, IfOk, OnOk, option_copied, reverse};
ghost use Rattle.ux_folds.specs.Lists.{AreBelow, AreOnce, AreSound, IsConsed, IsMore, Spells, link_at};

use indexmap::IndexSet;
use std::alloc::Global;
use std::hash::Hash;
use ux_base::Mem;

/// The last element of a list, and the number of the list of the others.
#[derive(Clone, Copy, PartialEq, Eq, Hash)]
pub struct Link<T> {
    /// The last element.
    pub last: T,
    /// The number of the list of those in front of it.
    pub front: usize,
}

/// The lists, by their links.
#[derive(Drop)]
pub struct Lists<T: Eq + Hash> {
    links: IndexSet<Link<T>>,
}

impl<T: Eq + Hash + Copy + Drop> Lists<T> {
    /// The empty list alone. Takes no memory.
    pub fn new(alloc: Global) -> Lists<T>
        ensures { result.links.keys ≡ [] }
    {
        Lists {
            links: IndexSet::new(alloc),
        }
    }

    /// The number of the list that has one more element.
    pub fn push(&mut self, front: usize, last: T) -> Mem<usize>
        requires same { (a b : T) → T.eq a b ≡ true → a ≡ b }
        requires itself { (a : T) → T.eq a a ≡ true }
        ensures { IfOk result (IsMore self.old.links.keys self.new.links.keys front (last ∷ [])) }
    {
        let number = self.cons(front, last)?;
        // For the prover: no link stands twice.
        stand_once(&self.links);
        Ok(number)
    }

    /// The number of the list that has these elements behind its own.
    pub fn extend(&mut self, front: usize, items: &[T]) -> Mem<usize>
        requires same { (a b : T) → T.eq a b ≡ true → a ≡ b }
        requires itself { (a : T) → T.eq a a ≡ true }
        ensures { IfOk result (IsMore self.old.links.keys self.new.links.keys front items.now) }
    {
        let mut number = front;
        for item in items {
            number = self.push(number, *item)?;
        }
        Ok(number)
    }

    /// The elements of a list.
    pub fn items(&self, alloc: Global, number: usize) -> Mem<Vec<T>>
        ensures { IfOk result (λ items. (xs : List T) → AreSound self.now.links.keys →
            Spells self.now.links.keys number xs → items.items ≡ xs) }
    {
        let mut items = Vec::new(alloc);
        let mut rest = number;
        while let Some(link) = self.link(rest) {
            if rest <= link.front {
                return Ok(items);
            }
            items.push(link.last)?;
            rest = link.front;
        }
        items.reverse();
        Ok(items)
    }

    /// The number of the link with this element behind this list.
    fn cons(&mut self, front: usize, last: T) -> Mem<usize>
        requires { (a b : T) → T.eq a b ≡ true → a ≡ b }
        ensures { IfOk result (IsConsed self.old.links.keys self.new.links.keys last front) }
    {
        let (index, _) = self.links.insert_full(Link { last, front })?;
        // For the prover: there are fewer than 2^63 links.
        self.links.len();
        Ok(index + 1)
    }

    /// The last link of a list, if it isn't empty.
    fn link(&self, number: usize) -> Option<&Link<T>>
        ensures { option_copied result ≡ link_at self.now.links.keys number }
    {
        self.links.get_index(number.checked_sub(1)?)
    }
}

/// No value stands in a set twice.
fn stand_once<T: Eq + Hash>(set: &IndexSet<T>)
    requires { (a : T) → T.eq a a ≡ true }
    ensures { AreOnce set.now.keys }
{
    set.len();
}
