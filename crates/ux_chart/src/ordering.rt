//! Lists in order, in which nothing stands twice.

ghost use Rattle.std.specs.Prelude.{◌≡◌, ℕ, ◌↔◌, true, Contains};
ghost use Rattle.std.specs.List.Sorted.{IsStrictlyIncreasing, IsStrictlySortedBy};

/// Puts the positions in order, and leaves each once. Takes no memory.
pub fn order_positions(positions: &mut Vec<usize>)
    ensures ascending { IsStrictlyIncreasing positions.new.items }
    ensures same { (j : ℕ) → Contains positions.new.items j ↔ Contains positions.old.items j }
{
    sort_once(positions);
}

/// Puts the states in order, and leaves each once. Takes no memory.
pub fn order_states(states: &mut Vec<u32>)
    ensures ascending { IsStrictlyIncreasing states.new.items }
    ensures same { (c : ℕ) → Contains states.new.items c ↔ Contains states.old.items c }
{
    sort_once(states);
}

/// Puts the items in order, and leaves each once. Mostly there is one at most, and nothing to do.
fn sort_once<T: Ord + Drop>(items: &mut Vec<T>)
    requires { (a b : T) → T.eq a b ≡ true → a ≡ b }
    ensures sorted { IsStrictlySortedBy T.cmp items.new.items }
    ensures same { (item : T) → Contains items.new.items item ↔ Contains items.old.items item }
{
    if items.len() > 1 {
        items.sort_unstable();
        items.dedup();
    }
}
