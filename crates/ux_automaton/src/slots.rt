//! Values by number, in a list with a place for each number.

ghost use Rattle.std.specs.Prelude.{◌≡◌, ◌⊎◌, ◌<◌, ℕ, Some, OnOk, length};
ghost use Rattle.ux_automaton.specs.Caches.{HasValue};

use ux_base::Mem;

/// The value of a number.
pub fn value_of<V: Copy>(slots: &[Option<V>], number: usize) -> Option<V>
    ensures { (value : V) → result ≡ Some value → HasValue slots.now number value }
{
    match slots.get(number) {
        Some(slot) => *slot,
        None => None,
    }
}

/// Gives a number a value, in place of the one that it had.
pub fn give<V: Copy>(slots: &mut Vec<Option<V>>, number: usize, value: V) -> Mem<()>
    ensures { OnOk result ((n : ℕ) (v : V) → HasValue slots.new.items n v →
        ((n ≡ number) × (v ≡ value)) ⊎ HasValue slots.old.items n v) }
{
    reach(slots, number)?;
    slots[number] = Some(value);
    Ok(())
}

/// Lets the list reach to a number: what is added has no value.
fn reach<V: Copy>(slots: &mut Vec<Option<V>>, number: usize) -> Mem<()>
    ensures long { OnOk result (number < length slots.new.items) }
    ensures same { OnOk result ((n : ℕ) (v : V) →
        HasValue slots.new.items n v → HasValue slots.old.items n v) }
{
    while slots.len() <= number {
        slots.push(None)?;
    }
    Ok(())
}
