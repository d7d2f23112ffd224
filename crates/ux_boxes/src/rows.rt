//! Rows: what stands at the places of all graphs, in a row for each graph, and a row by its number.

ghost use Rattle.std.specs.Prelude.{◌≡◌, [], length, get_or, IfOk};
ghost use Rattle.ux_boxes.specs.Numbers.{all_places};
ghost use Rattle.ux_boxes.specs.Rows.{cut};

use crate::place::Place;
use std::alloc::Global;
use ux_base::{Lst, Mem};

/// Cuts the list into a row for each graph, with an entry for each of its places.
pub fn rows_by_graph<T: Copy>(alloc: Global, graphs: &[Lst<Place>], items: &[T]) -> Mem<Vec<Lst<T>>>
    requires whole { length items.now ≡ all_places graphs.now }
    ensures { IfOk result (λ rows. rows.items ≡ cut graphs.now items.now) }
{
    let mut rows = Vec::new(alloc);
    let mut rest = items;
    for places in graphs {
        let (row, behind) = rest.split_at(places.as_slice().len());
        rows.push(Lst::new(copied(alloc, row)?))?;
        rest = behind;
    }
    Ok(rows)
}

/// The same items.
fn copied<T: Copy>(alloc: Global, items: &[T]) -> Mem<Vec<T>>
    ensures { IfOk result (λ row. row.items ≡ items.now) }
{
    let mut row = Vec::new(alloc);
    for item in items {
        row.push(*item)?;
    }
    Ok(row)
}

/// The row of this number; nothing, where there is none.
pub fn row_at<T>(rows: &[Lst<T>], number: usize) -> &[T]
    ensures { result.now ≡ get_or rows.now number [] }
{
    match rows.get(number) {
        Some(row) => row.as_slice(),
        None => &[],
    }
}
