//! Sets in which equal values fall together.

ghost use Rattle.std.specs.Prelude.{◌≡◌, ◌↔◌, ◌⊎◌, true, false, Contains, IfOk, OnOk, Some, slice_get};
ghost use Rattle.ux_walk.specs.Links.{AreOnce};
ghost use Rattle.ux_walk.specs.Groups.{Grows, IsAdded};

use indexmap::IndexSet;
use std::hash::Hash;
use ux_base::Mem;

/// Adds the item, where it is new.
pub fn put<T: Eq + Hash + Drop>(set: &mut IndexSet<T>, item: T) -> Mem<()>
    requires { (a b : T) → T.eq a b ≡ true → a ≡ b }
    ensures { OnOk result ((x : T) →
        Contains set.new.keys x ↔ (Contains set.old.keys x ⊎ (x ≡ item))) }
{
    set.insert(item)?;
    Ok(())
}

/// No value stands in a set twice.
pub fn stand_once<T: Eq + Hash>(set: &IndexSet<T>)
    requires { (a : T) → T.eq a a ≡ true }
    ensures { AreOnce set.now.keys }
{
    set.len();
}

/// Adds the item behind the others, where it is new. Whether it is.
pub fn add<T: Eq + Hash + Drop>(set: &mut IndexSet<T>, item: T) -> Mem<bool>
    requires { (a b : T) → T.eq a b ≡ true → a ≡ b }
    ensures { IfOk result (IsAdded set.old.keys set.new.keys item) }
{
    let (_, is_new) = set.insert_full(item)?;
    Ok(is_new)
}

/// The number of the item, which is added behind the others where it is new.
pub fn number<T: Eq + Hash + Drop>(set: &mut IndexSet<T>, item: T) -> Mem<usize>
    requires { (a b : T) → T.eq a b ≡ true → a ≡ b }
    ensures grows { OnOk result (Grows set.old.keys set.new.keys) }
    ensures numbered { IfOk result (λ number. slice_get set.new.keys number ≡ Some item) }
{
    let (number, _) = set.insert_full(item)?;
    Ok(number)
}
