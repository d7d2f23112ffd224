//! Which steps leave each place.

ghost use Rattle.std.specs.Prelude.{◌≡◌, ℕ, ◌<◌, [], ◌∷◌, ◌++◌, IfOk, OnOk, length, map, get_or, slice_set};
ghost use Rattle.ux_rules.specs.Rules.{AreInside, AreLeaving};

use crate::step::Step;
use std::alloc::{AllocError, Global};
use ux_base::Mem;

/// By place, the numbers of the steps that leave it. Takes a step for each place and each step.
pub(crate) fn leaving_of(alloc: Global, places: usize, steps: &[Step]) -> Mem<Vec<Vec<usize>>>
    requires inside { AreInside places steps.now }
    ensures { IfOk result (λ rows. AreLeaving steps.now (map (λ row. row.items) rows.items)) }
{
    let mut rows = empty_rows(alloc, places)?;
    for (number, step) in steps.iter().enumerate() {
        put(&mut rows, step.from, number)?;
    }
    Ok(rows)
}

/// An empty row for each place.
fn empty_rows(alloc: Global, places: usize) -> Result<Vec<Vec<usize>>, AllocError>
    ensures len { IfOk result (λ rows. length rows.items ≡ places) }
    ensures empty { IfOk result (λ rows.
        (k : ℕ) → get_or (map (λ row. row.items) rows.items) k [] ≡ []) }
{
    let mut rows = Vec::new(alloc);
    for place in 0..places {
        rows.push(Vec::new(alloc))?;
    }
    Ok(rows)
}

/// Puts the number at the end of the row of the place.
fn put(rows: &mut Vec<Vec<usize>>, place: usize, number: usize) -> Result<(), AllocError>
    requires inside { place < length rows.now.items }
    ensures len { OnOk result (length rows.new.items ≡ length rows.old.items) }
    ensures put { OnOk result (map (λ row. row.items) rows.new.items ≡
        slice_set (map (λ row. row.items) rows.old.items) place
        (get_or (map (λ row. row.items) rows.old.items) place [] ++ number ∷ [])) }
{
    rows[place].push(number)?;
    Ok(())
}
