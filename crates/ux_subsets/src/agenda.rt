//! What waits, by the least states of the sets.
//!
//! All links to sets with one least state leave sets with smaller ones. So once those have their
//! links, all that waits for the state is known. It is taken then, with its row: there are rows for
//! the states from the one that is due to the greatest for which anything waits, and no others.

ghost use Rattle.std.specs.Prelude.{◌≡◌, ◌<◌, ◌≤◌, ◌+◌, ℕ, [], OnOk};
ghost use Rattle.std.specs.VecDeque.{deque_len};
ghost use Rattle.ux_subsets.specs.Agenda.{IsFiled, IsTaken, filed_in};

use crate::sets::Waiting;
use std::alloc::Global;
use std::collections::VecDeque;
use ux_base::Mem;

/// What waits for the states from the one that is due on, a row for each.
#[derive(Drop)]
pub struct Agenda {
    pub due: usize,
    pub rows: VecDeque<Vec<Waiting>>,
}

impl Agenda {
    /// Nothing waits, and state 1 is due: nothing leads to the first state.
    pub(crate) fn new(alloc: Global) -> Agenda
        ensures due { result.due ≡ 1 }
        ensures empty { (k : ℕ) → filed_in result k ≡ [] }
    {
        Agenda {
            due: 1,
            rows: VecDeque::new(alloc),
        }
    }

    /// Takes what waits for sets with this least state, which is due. The next one is due then.
    pub(crate) fn take(&mut self, alloc: Global, state: u32) -> Vec<Waiting>
        requires { self.now.due ≡ state }
        ensures due { self.new.due ≡ state + 1 }
        ensures taken { IsTaken (filed_in self.old) (filed_in self.new) state result.items }
    {
        self.due = state as usize + 1;
        match self.rows.pop_front() {
            Some(row) => row,
            None => Vec::new(alloc),
        }
    }

    /// Files what waits by the least state of its set, which is due or comes later.
    pub(crate) fn file(&mut self, alloc: Global, waiting: Waiting) -> Mem<()>
        ensures due { OnOk result (self.new.due ≡ self.old.due) }
        ensures filed { OnOk result (self.old.due ≤ waiting.set.first →
            IsFiled (filed_in self.old) (filed_in self.new) waiting) }
    {
        let place = (waiting.set.first as usize).saturating_sub(self.due);
        self.pad(alloc, place)?;
        self.rows[place].push(waiting)?;
        Ok(())
    }

    /// Makes rows up to the one at this place.
    fn pad(&mut self, alloc: Global, place: usize) -> Mem<()>
        ensures due { OnOk result (self.new.due ≡ self.old.due) }
        ensures there { OnOk result (place < deque_len self.new.rows) }
        ensures same { OnOk result ((k : ℕ) → filed_in self.new k ≡ filed_in self.old k) }
    {
        while self.rows.len() <= place {
            self.rows.push_back(Vec::new(alloc))?;
        }
        Ok(())
    }
}
