//! Lists of texts in the order of their bytes, in which none stands twice.

ghost use Rattle.std.specs.Prelude.{◌≡◌, ◌↔◌, ℕ, List, Contains, true};
ghost use Rattle.std.specs.List.Sorted.{IsStrictlySortedBy};
ghost use Rattle.std.specs.Cmp.Lexicographic.{slice_cmp};
ghost use Rattle.std.specs.Ordering.{nat_cmp};

use ux_base::Txt;

/// Puts the texts in order, and leaves each once. Takes no memory.
pub fn sort_once(texts: &mut Vec<Txt>)
    ensures sorted { IsStrictlySortedBy (slice_cmp nat_cmp) texts.new.items }
    ensures same { (text : List ℕ) → Contains texts.new.items text ↔ Contains texts.old.items text }
{
    sort_items(texts);
}

/// Puts the items in order, and leaves each once.
fn sort_items<T: Ord + Drop>(items: &mut Vec<T>)
    requires { (a b : T) → T.eq a b ≡ true → a ≡ b }
    ensures sorted { IsStrictlySortedBy T.cmp items.new.items }
    ensures same { (item : T) → Contains items.new.items item ↔ Contains items.old.items item }
{
    items.sort_unstable();
    items.dedup();
}
