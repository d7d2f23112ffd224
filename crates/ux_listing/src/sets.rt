//! Sets in which equal values fall together, and lists that grow.

ghost use Rattle.std.specs.Prelude.{◌≡◌, ◌↔◌, ◌<◌, ℕ, true, Contains, IfOk, IfSome, IsTrue, OnOk, Some, slice_get};
ghost use Rattle.ux_walk.specs.Links.{AreOnce};
ghost use Rattle.ux_listing.specs.Sets.{IsAdded};

use std::hash::Hash;
use ux_base::Mem;
use ux_folds::numbered::Numbered;

/// The number of the item, which is added behind the others where it is new.
pub fn number<T: Eq + Hash + Copy + Drop>(set: &mut Numbered<T>, item: T) -> Mem<usize>
    requires { (a b : T) → T.eq a b ≡ true → a ≡ b }
    ensures added { OnOk result (IsAdded set.old.keys set.new.keys item) }
    ensures numbered { IfOk result (λ number. slice_get set.new.keys number ≡ Some item) }
{
    set.number(item)
}

/// The number of the item, if it is there.
pub fn place_of<T: Eq + Hash + Copy + Drop>(set: &Numbered<T>, item: T) -> Option<usize>
    requires same { (a b : T) → T.eq a b ≡ true → a ≡ b }
    requires itself { (a : T) → T.eq a a ≡ true }
    ensures { (number : ℕ) → (result ≡ Some number) ↔ (slice_get set.now.keys number ≡ Some item) }
{
    stand_once(set);
    set.place_of(item)
}

/// The item of a number. Fewer than 2^63 fit.
pub fn item_at<T: Eq + Hash + Copy + Drop>(set: &Numbered<T>, number: usize) -> Option<T>
    ensures is { result ≡ slice_get set.now.keys number }
    ensures few { IfSome result (λ item. number < 9223372036854775807) }
{
    set.len();
    set.get(number)
}

/// No value stands in a set twice.
pub fn stand_once<T: Eq + Hash + Copy + Drop>(set: &Numbered<T>)
    requires { (a : T) → T.eq a a ≡ true }
    ensures { AreOnce set.now.keys }
{
    set.len();
}

/// Adds an item at the end of a list.
pub fn push<T: Drop>(list: &mut Vec<T>, item: T) -> Mem<()>
    ensures { OnOk result (IsAdded list.old.items list.new.items item) }
{
    list.push(item)?;
    Ok(())
}

/// Whether the item is in the set.
pub fn is_in<T: Eq + Hash + Copy + Drop>(set: &Numbered<T>, item: T) -> bool
    requires { (a b : T) → T.eq a b ≡ true → a ≡ b }
    ensures { IsTrue result ↔ Contains set.now.keys item }
{
    set.place_of(item).is_some()
}
