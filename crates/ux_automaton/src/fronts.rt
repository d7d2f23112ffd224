//! Fronts as lists of stands, and stacks as lists of frames.
//!
//! Both share tails, and equal lists have equal numbers, so a front that is come to twice is one.

ghost use Rattle.std.specs.Prelude.{◌↔◌, ◌⊎◌, Contains, IfOk, OnOk};
ghost use Rattle.ux_closure.specs.declared.stand.Stand.{Stand as TheStand};
ghost use Rattle.ux_closure.specs.Holding.{IsClosure};
ghost use Rattle.ux_automaton.specs.Fronts.{HasStand, HoldsIn, IsFrontIn};
ghost use Rattle.ux_automaton.specs.Kept.{AreStands, Grows, IsSound, store_of};

use indexmap::IndexSet;
use std::alloc::Global;
use ux_base::Mem;
use ux_closure::closing::Closure;
use ux_closure::passing::closure;
use ux_closure::stand::Stand;
use ux_net::Net;
use ux_walk::config::Frame;
use ux_walk::lists::Lists;
use ux_walk::sets::put;

/// The fronts, by the stands of each.
#[derive(Drop)]
pub struct Fronts {
    /// To which frames stands return.
    stacks: Lists<Frame>,
    /// The stands of each front.
    fronts: Lists<Stand>,
    /// The greatest number of a front: so many links there are.
    greatest: usize,
}

impl Fronts {
    /// The empty front alone. Takes no memory.
    pub fn new(alloc: Global) -> Fronts
        ensures { IsSound (store_of result) }
    {
        Fronts {
            stacks: Lists::new(alloc),
            fronts: Lists::new(alloc),
            greatest: 0,
        }
    }

    /// How many links tell the fronts.
    pub fn size(&self) -> usize {
        self.greatest
    }

    /// The front of these stands.
    pub fn front_of(&mut self, stands: &[Stand]) -> Mem<usize>
        requires sound { IsSound (store_of self.old) }
        requires stands { AreStands (store_of self.old) stands.now }
        ensures grows { OnOk result (Grows (store_of self.old) (store_of self.new)) }
        ensures there { IfOk result (IsFrontIn (store_of self.new)) }
        ensures stands { IfOk result (λ front. (stand : TheStand) →
            HasStand (store_of self.new) front stand ↔ Contains stands.now stand) }
    {
        let mut front = 0;
        for stand in stands {
            front = self.fronts.cons(*stand, front)?;
        }
        self.greatest = self.greatest.max(front);
        Ok(front)
    }

    /// The stands of a front.
    pub fn stands(&self, alloc: Global, front: usize) -> Mem<Vec<Stand>>
        requires sound { IsSound (store_of self.now) }
        requires there { IsFrontIn (store_of self.now) front }
        ensures stands { IfOk result (λ stands. (stand : TheStand) →
            Contains stands.items stand ↔ HasStand (store_of self.now) front stand) }
        ensures there { IfOk result (λ stands. AreStands (store_of self.now) stands.items) }
    {
        self.fronts.spell(alloc, front)
    }

    /// The front of the stacks of both.
    pub fn join(&mut self, alloc: Global, one: usize, other: usize) -> Mem<usize>
        requires sound { IsSound (store_of self.now) }
        requires one { IsFrontIn (store_of self.now) one }
        requires other { IsFrontIn (store_of self.now) other }
        ensures grows { OnOk result (Grows (store_of self.old) (store_of self.new)) }
        ensures there { IfOk result (IsFrontIn (store_of self.new)) }
        ensures both { IfOk result (λ front. (stand : TheStand) →
            HasStand (store_of self.new) front stand
            ↔ (HasStand (store_of self.old) one stand ⊎ HasStand (store_of self.old) other stand)) }
    {
        let first = self.stands(alloc, one)?;
        let second = self.stands(alloc, other)?;
        let stands = each_once(alloc, first.as_slice(), second.as_slice())?;
        self.front_of(stands.as_slice())
    }

    /// All that a front reaches without a token.
    pub fn close(&mut self, alloc: Global, net: &Net, front: usize, is_spaced: bool) -> Mem<Closure>
        requires sound { IsSound (store_of self.old) }
        requires there { IsFrontIn (store_of self.old) front }
        ensures grows { OnOk result (Grows (store_of self.old) (store_of self.new)) }
        ensures closure { IfOk result (IsClosure net.now is_spaced
            (HoldsIn (store_of self.old) front) self.new.stacks.links.keys) }
    {
        let stands = self.stands(alloc, front)?;
        closure(alloc, net, &mut self.stacks, stands.as_slice(), is_spaced)
    }
}

/// The stands of both lists, each once.
fn each_once(alloc: Global, first: &[Stand], second: &[Stand]) -> Mem<IndexSet<Stand>>
    ensures { IfOk result (λ stands. (stand : TheStand) → Contains stands.keys stand
        ↔ (Contains first.now stand ⊎ Contains second.now stand)) }
{
    let mut stands = IndexSet::new(alloc);
    put_all(&mut stands, first)?;
    put_all(&mut stands, second)?;
    Ok(stands)
}

/// Puts the stands into a set.
fn put_all(set: &mut IndexSet<Stand>, stands: &[Stand]) -> Mem<()>
    ensures { OnOk result ((stand : TheStand) → Contains set.new.keys stand
        ↔ (Contains set.old.keys stand ⊎ Contains stands.now stand)) }
{
    for stand in stands {
        put(set, *stand)?;
    }
    Ok(())
}
