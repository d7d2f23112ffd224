//! Items in order, each once, and their places.

ghost use Rattle.std.specs.Prelude.{◌≡◌, ◌↔◌, ◌<◌, Contains, length, true};
ghost use Rattle.std.specs.declared.cmp.Ordering.TheVariants.{Equal};
ghost use Rattle.std.specs.List.{HoldsAt};
ghost use Rattle.std.specs.List.Sorted.{IsStrictlySortedBy};

/// The items in order, each once.
pub(crate) fn in_order<T: Ord + Drop>(mut items: Vec<T>) -> Vec<T>
    ensures in_order { IsStrictlySortedBy T.cmp result.items }
    ensures same { ((x y : T) → T.eq x y ≡ true → x ≡ y) → (item : T) →
        Contains result.items item ↔ Contains items.items item }
{
    items.sort_unstable();
    items.dedup();
    items
}

/// The place of an item in a list in order that has it. It is looked up by halving.
pub(crate) fn place_of<T: Ord>(sorted: &[T], item: &T) -> usize
    requires in_order { IsStrictlySortedBy T.cmp sorted.now }
    requires there { Contains sorted.now item.now }
    ensures inside { result < length sorted.now }
    ensures equal { HoldsAt (λ other. T.cmp other item.now ≡ Equal) sorted.now result }
{
    match sorted.binary_search(item) {
        Ok(place) => place,
        Err(place) => place,
    }
}
