//! What the forms that begin in each state have together.
//!
//! There may be far more forms than states, so no form is gone to: the states are taken from the lowest
//! up, and the sum of one is that of the form that ends in it and of the states to which its edges lead.

ghost use Rattle.std.specs.Prelude.{◌≡◌, ◌+◌, ◌<◌, IfOk, IsTrue, length, min};
ghost use Rattle.ux_dawg.specs.Listed.{ending as forms_ending};
ghost use Rattle.ux_image_lists.specs.Sizes.{MOST};
ghost use Rattle.ux_image_look_ups.specs.Ways.{forms_at};
ghost use Rattle.ux_image_lexicon.specs.Counting.{AreApart};
ghost use Rattle.ux_image_lexicon.specs.Summing.{AreSums, AreSumsTo, IsSumOf};

use crate::apart::{flag_at, lists_apart};
use crate::coded::Coded;
use crate::codes::ReadList;
use crate::entries::codes_at;
use std::alloc::Global;
use ux_base::Mem;

/// What some forms have together.
#[derive(Clone, Copy)]
pub(crate) struct Sum {
    /// How many codes the lists of all of them have, as far as a machine word holds it.
    pub(crate) codes: usize,
    /// Whether the codes of each of their lists are known to make as many entries of any form.
    pub(crate) apart: bool,
}

/// The sums of an automaton.
#[derive(Drop)]
pub(crate) struct Sums {
    /// A flag for each list, which is true where its codes make as many entries of any form.
    pub(crate) lists: Vec<bool>,
    /// The sum of the forms that begin in each state.
    pub(crate) states: Vec<Sum>,
}

impl Sums {
    /// The sums of the automaton. Takes a step for each code of a list, each state and each edge.
    pub(crate) fn of(alloc: Global, coded: &Coded) -> Mem<Sums>
        ensures { IfOk result (AreSums coded.now) }
    {
        let lists = lists_apart(alloc, coded.lists())?;
        let states = sums_of(alloc, coded, &lists)?;
        Ok(Sums { lists, states })
    }
}

/// The sum of the forms that begin in each state.
fn sums_of(alloc: Global, coded: &Coded, apart: &[bool]) -> Mem<Vec<Sum>>
    requires { AreApart coded.now.lists apart.now }
    ensures { IfOk result (λ sums. AreSumsTo coded.now (length coded.now.states) sums.items) }
{
    let mut sums = Vec::new(alloc);
    for number in 0..coded.states().len() {
        let sum = sum_from(coded, apart, &sums, number);
        sums.push(sum)?;
    }
    Ok(sums)
}

/// The sum of the forms that begin in the state of this number, by those of all states below.
fn sum_from(coded: &Coded, apart: &[bool], sums: &[Sum], number: usize) -> Sum
    requires apart { AreApart coded.now.lists apart.now }
    requires within { number < length coded.now.states }
    requires below { AreSumsTo coded.now number sums.now }
    ensures { IsSumOf coded.now.lists (forms_at coded.now.states number) result }
{
    let mut sum = ending(coded.lists(), apart, coded.states().code(number));
    for edge in coded.states().edges(number) {
        sum = sum.with(sums[edge.target as usize]);
    }
    sum
}

/// The sum of the form that ends in a state with this list; of none, where it has no list.
fn ending(lists: &[ReadList], apart: &[bool], number: Option<u32>) -> Sum
    requires { AreApart lists.now apart.now }
    ensures { IsSumOf lists.now (forms_ending number) result }
{
    match number {
        Some(number) => Sum {
            codes: codes_at(lists, number).len(),
            apart: flag_at(apart, number),
        },
        None => Sum {
            codes: 0,
            apart: true,
        },
    }
}

impl Sum {
    /// The sum of these forms and others.
    fn with(self, others: Sum) -> Sum
        ensures codes { result.codes ≡ min (self.codes + others.codes) MOST }
        ensures apart { IsTrue result.apart → IsTrue self.apart × IsTrue others.apart }
    {
        Sum {
            codes: self.codes.saturating_add(others.codes),
            apart: self.apart && others.apart,
        }
    }
}
