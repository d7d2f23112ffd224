//! A walk through an automaton, from one state to the next, along each way once.
//!
//! It keeps the letters of the way that it is on, and the states to which it will come; no list of
//! forms is made. Of states that are left to one letter it comes to the last one first.

ghost use Rattle.std.specs.Prelude.{◌≡◌, ◌++◌, ◌∷◌, [], MatchOption, OnOk, length, map, take};
ghost use Rattle.ux_image_lexicon.specs.Walking.{branch_by};

use std::alloc::Global;
use ux_base::Mem;
use ux_dawg::Edge;

/// A state to which a walk will come.
#[derive(Clone, Copy)]
pub(crate) struct Branch {
    /// How many letters lead to the state before it.
    depth: usize,
    /// The letter that leads on from there.
    letter: char,
    /// The number of the state.
    pub(crate) state: usize,
}

/// A walk through an automaton.
#[derive(Drop)]
pub(crate) struct Walk {
    /// The letters that lead to the state where the walk is.
    letters: Vec<char>,
    /// The states that are left.
    branches: Vec<Branch>,
}

impl Walk {
    /// A walk that is in the root, with no other state left. Takes no memory.
    pub(crate) fn new(alloc: Global) -> Walk
        ensures letters { result.letters.items ≡ [] }
        ensures branches { result.branches.items ≡ [] }
    {
        Walk {
            letters: Vec::new(alloc),
            branches: Vec::new(alloc),
        }
    }

    /// The letters that lead to the state where the walk is.
    pub(crate) fn letters(&self) -> &[char]
        ensures { result.now ≡ self.now.letters.items }
    {
        &self.letters
    }

    /// Leaves the states for later to which the edges lead from the one where the walk is.
    pub(crate) fn branch(&mut self, edges: &[Edge]) -> Mem<()>
        ensures letters { OnOk result (self.new.letters.items ≡ self.old.letters.items) }
        ensures branches { OnOk result (self.new.branches.items ≡
            self.old.branches.items ++ map (branch_by (length self.old.letters.items)) edges.now) }
    {
        let depth = self.letters.len();
        push_branches(depth, edges, &mut self.branches)
    }

    /// Takes the state that was left last, if there is one.
    pub(crate) fn pop(&mut self) -> Option<Branch>
        ensures letters { self.new.letters.items ≡ self.old.letters.items }
        ensures branches { MatchOption result
            ((self.old.branches.items ≡ []) × (self.new.branches.items ≡ []))
            (λ branch. self.old.branches.items ≡ self.new.branches.items ++ branch ∷ []) }
    {
        self.branches.pop()
    }

    /// Goes to the state.
    pub(crate) fn go_to(&mut self, branch: Branch) -> Mem<()>
        ensures letters { OnOk result (self.new.letters.items ≡
            take branch.depth self.old.letters.items ++ branch.letter ∷ []) }
        ensures branches { OnOk result (self.new.branches.items ≡ self.old.branches.items) }
    {
        self.letters.truncate(branch.depth);
        self.letters.push(branch.letter)?;
        Ok(())
    }
}

/// Puts the states last to which the edges lead from one that so many letters lead to.
fn push_branches(depth: usize, edges: &[Edge], branches: &mut Vec<Branch>) -> Mem<()>
    ensures { OnOk result
        (branches.new.items ≡ branches.old.items ++ map (branch_by depth) edges.now) }
{
    for edge in edges {
        branches.push(Branch {
            depth,
            letter: edge.letter,
            state: edge.target as usize,
        })?;
    }
    Ok(())
}
