//! Lists in rows: one for each number.

ghost use Rattle.std.specs.Prelude.{◌≡◌, ◌<◌, ◌↔◌, ◌⊎◌, ◌++◌, ℕ, [], Contains, IfOk, OnOk, get_or, length, map};
ghost use Rattle.ux_subsets.specs.Rows.{row_at};

use std::alloc::Global;
use ux_base::Mem;

/// So many empty rows.
pub fn empty_rows<T: Drop>(alloc: Global, size: usize) -> Mem<Vec<Vec<T>>>
    ensures len { IfOk result (λ rows. length rows.items ≡ size) }
    ensures empty { IfOk result (λ rows. (place : ℕ) → row_at rows.items place ≡ []) }
{
    let mut rows = Vec::new(alloc);
    for place in 0..size {
        rows.push(Vec::new(alloc))?;
    }
    Ok(rows)
}

/// Puts the item at the end of the row with this number.
pub fn put<T: Drop>(rows: &mut Vec<Vec<T>>, place: usize, item: T) -> Mem<()>
    requires { place < length rows.now.items }
    ensures len { OnOk result (length rows.new.items ≡ length rows.old.items) }
    ensures put { OnOk result ((k : ℕ) (x : T) → Contains (row_at rows.new.items k) x ↔
        (Contains (row_at rows.old.items k) x ⊎ ((k ≡ place) × (x ≡ item)))) }
{
    rows[place].push(item)?;
    Ok(())
}

/// The row with this number, none where there is no such row.
pub fn row_of<T>(rows: &[Vec<T>], place: usize) -> &[T]
    ensures { result.now ≡ row_at rows.now place }
{
    match rows.get(place) {
        Some(row) => row.as_slice(),
        None => &[],
    }
}
