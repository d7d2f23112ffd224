//! The numbers of lists in an image: by their first use, in order of state.

ghost use Rattle.std.specs.Prelude.{◌≡◌, ◌<◌, IfOk, OnOk, length, nat_eq, slice_get};
ghost use Rattle.std.specs.List.{position_or_len, filter_map};
ghost use Rattle.std.specs.Option.{option_to_list};
ghost use Rattle.ux_base.specs.Distinct.{AreFirsts, GrowsBy};
ghost use Rattle.ux_dawg.specs.declared.state.State.{State};
ghost use Rattle.ux_image.specs.Images.{numbers_in};

use indexmap::IndexSet;
use std::alloc::Global;
use ux_base::Mem;
use ux_dawg::Dawg;

/// The numbers of the final states, each once, by its first state.
pub(crate) fn order_of(alloc: Global, automaton: &Dawg) -> Mem<IndexSet<u32>>
    ensures { IfOk result (λ order. AreFirsts (numbers_in automaton.now) order.keys) }
{
    let mut order = IndexSet::new(alloc);
    let root = automaton.root();
    for number in 0..root {
        note_state(&mut order, automaton, number)?;
    }
    note_state(&mut order, automaton, root)?;
    Ok(order)
}

/// Notes the number of the state, if it is final.
fn note_state(order: &mut IndexSet<u32>, automaton: &Dawg, number: usize) -> Mem<()>
    requires { number < length automaton.now }
    ensures { OnOk result (GrowsBy (numbers_in (option_to_list (slice_get automaton.now number)))
        order.old.keys order.new.keys) }
{
    note_code(order, automaton.code(number))
}

/// Notes the number, if there is one.
fn note_code(order: &mut IndexSet<u32>, code: Option<u32>) -> Mem<()>
    ensures { OnOk result (GrowsBy (option_to_list code) order.old.keys order.new.keys) }
{
    if let Some(code) = code {
        order.insert_full(code)?;
    }
    Ok(())
}

/// The place of the number, or behind all of them where it isn't there.
pub(crate) fn place_in(order: &IndexSet<u32>, number: u32) -> usize
    ensures { result ≡ position_or_len (nat_eq number) order.now.keys }
{
    order.get_index_of(&number).unwrap_or(order.len())
}
