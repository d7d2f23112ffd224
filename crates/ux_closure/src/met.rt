//! The stands that were met so far.

ghost use Rattle.std.specs.Prelude.{◌≡◌, ◌↔◌, false, true, Contains, IfOk, OnOk, length, slice_get};
ghost use Rattle.ux_walk.specs.Links.{AreOnce};
ghost use Rattle.ux_closure.specs.declared.stand.Stand.{Stand as TheStand};
ghost use Rattle.ux_closure.specs.Meeting.{IsPut};

use crate::closing::Closure;
use crate::stand::Stand;
use indexmap::IndexSet;
use std::alloc::Global;
use std::hash::Hash;
use ux_base::Mem;
use ux_walk::sets::stand_once;

/// The stands that were met, in order, and whether the empty stack was.
#[derive(Drop)]
pub struct Met {
    /// The stands, each once. New ones stand behind the others.
    pub stands: IndexSet<Stand>,
    /// Whether the empty stack was met.
    pub ends: bool,
}

impl Met {
    /// The given stands alone.
    pub fn of(alloc: Global, stands: &[Stand]) -> Mem<Met>
        ensures stands { IfOk result (λ met. (x : TheStand) →
            Contains met.stands.keys x ↔ Contains stands.now x) }
        ensures ends { IfOk result (λ met. met.ends ≡ false) }
    {
        let mut met = Met {
            stands: IndexSet::new(alloc),
            ends: false,
        };
        for stand in stands {
            met.put(*stand)?;
        }
        Ok(met)
    }

    /// How many stands were met.
    pub fn count(&self) -> usize
        ensures { result ≡ length self.now.stands.keys }
    {
        self.stands.as_slice().len()
    }

    /// The stand that was met at this place in their order.
    pub fn stand(&self, place: usize) -> Option<Stand>
        ensures { result ≡ slice_get self.now.stands.keys place }
    {
        self.stands.as_slice().get(place).copied()
    }

    /// Adds the stand, where it is new.
    pub fn put(&mut self, stand: Stand) -> Mem<()>
        ensures put { OnOk result (IsPut self.old.stands.keys self.new.stands.keys stand) }
        ensures ends { self.new.ends ≡ self.old.ends }
    {
        put_last(&mut self.stands, stand)
    }

    /// All that was met. Takes a step a stand.
    pub fn into_closure(self, alloc: Global) -> Mem<Closure>
        ensures stands { IfOk result (λ closure. closure.stands.items ≡ self.stands.keys) }
        ensures ends { IfOk result (λ closure. closure.ends ≡ self.ends) }
        ensures once { IfOk result (λ closure. AreOnce closure.stands.items) }
    {
        stand_once(&self.stands);
        let stands = Vec::from_slice(alloc, self.stands.as_slice())?;
        Ok(Closure {
            stands,
            ends: self.ends,
        })
    }
}

/// Puts the item behind the others, where it is new.
fn put_last<T: Eq + Hash + Drop>(set: &mut IndexSet<T>, item: T) -> Mem<()>
    requires { (a b : T) → T.eq a b ≡ true → a ≡ b }
    ensures { OnOk result (IsPut set.old.keys set.new.keys item) }
{
    set.insert(item)?;
    Ok(())
}
