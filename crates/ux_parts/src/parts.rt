//! The parts of a net, by number and by state.

ghost use Rattle.std.specs.Prelude.{◌≡◌, length, IfOk, slice_get, option_copied};
ghost use Rattle.ux_parts.specs.Order.{all_entries, IsOrderOf};
ghost use Rattle.ux_parts.specs.Parts.{number_of, closing_of, ArePartsOf};

use crate::ordering::{Entry, entries, list_of, numbers_of, order_of};
use crate::part::Part;
use std::alloc::Global;
use ux_base::{Lst, Mem, NoMemory};
use ux_net::Net;

/// The parts of a net.
#[derive(Drop)]
pub struct Parts {
    /// The parts, each after those that it enters with nothing taken.
    pub list: Lst<Part>,
    /// A row for each graph, with the number of the part that begins at each state. A state behind
    /// the end of its row begins none.
    pub numbers: Lst<Lst<Option<u32>>>,
    /// More levels than negative contexts nest in each other, the lowest of which has none.
    pub levels: usize,
}

impl Parts {
    /// The parts of a net: its graphs and the bodies of its contexts, in the order of the ranks of
    /// their first states. Takes the time of a sort of them. Where they are more than 32 bits number,
    /// it is out of memory.
    pub fn of(alloc: Global, net: &Net) -> Mem<Parts>
        ensures { IfOk result (λ parts. ArePartsOf net.now parts) }
    {
        let order = order_of(entries(alloc, net)?);
        Parts::in_order(alloc, net, &order)
    }

    /// The parts that begin at these states.
    fn in_order(alloc: Global, net: &Net, order: &[Entry]) -> Mem<Parts>
        requires order { IsOrderOf (all_entries net.now (length net.now)) order.now }
        ensures { IfOk result (λ parts. ArePartsOf net.now parts) }
    {
        net.is_marked();
        net.tells_closings();
        if order.len() > u32::MAX as usize {
            return Err(NoMemory);
        }
        let numbers = numbers_of(alloc, net.graphs() as usize, order)?;
        let list = list_of(alloc, net, order)?;
        Ok(Parts {
            list: Lst::new(list),
            numbers: Lst::new(numbers),
            levels: u32::MAX as usize,
        })
    }

    /// The number of the part that begins at a state of a graph, if one does.
    pub fn number(&self, graph: u32, state: u32) -> Option<u32>
        ensures { result ≡ number_of self.now graph state }
    {
        let row = self
            .numbers
            .as_slice()
            .get((graph as usize).checked_sub(1)?)?;
        *row.as_slice().get(state as usize)?
    }

    /// The part of this number, if there is one.
    pub fn part(&self, number: u32) -> Option<&Part>
        ensures { option_copied result ≡ slice_get self.now.list number }
    {
        self.list.as_slice().get(number as usize)
    }

    /// The state into which the body that begins at a state is closed, as its part tells: where a
    /// negative context's body is closed.
    pub fn closing(&self, graph: u32, state: u32) -> &[u32]
        ensures { result.now ≡ closing_of self.now graph state }
    {
        let Some(number) = self.number(graph, state) else {
            return &[];
        };
        match self.part(number) {
            Some(part) => part.closing.as_slice(),
            None => &[],
        }
    }
}
