//! An automaton with the lists of codes in which its forms end.

ghost use Rattle.std.specs.Prelude.{◌≡◌, All};
ghost use Rattle.ux_image_lexicon.specs.Told.{CodedForms, IsCoded};

use crate::codes::ReadList;
use std::marker::Model;
use ux_dawg::States;

/// The states of an automaton, and the lists of codes in which its forms end. Contracts see both.
#[derive(Drop)]
pub struct Coded {
    states: States,
    lists: Vec<ReadList>,
}

impl Model for Coded {
    ghost use Rattle.ux_image_lexicon.specs.Told.{CodedForms, IsCoded};

    ghost Value = { CodedForms };

    ghost view = { λ coded. record { states = coded.states; lists = coded.lists.items } };

    ghost invariant = { λ coded. IsCoded (record {
      states = coded.states;
      lists = coded.lists.items;
    }) };
}

impl Coded {
    /// These states and lists.
    pub(crate) fn new(states: States, lists: Vec<ReadList>) -> Coded
        requires { IsCoded (record { states = states; lists = lists.items }) }
        ensures states { result.states ≡ states }
        ensures lists { result.lists ≡ lists.items }
    {
        Coded { states, lists }
    }

    /// The states, by number. The last one is the root.
    pub(crate) fn states(&self) -> &States
        ensures value { result.now ≡ self.now.states }
        ensures is { IsCoded self.now }
    {
        &self.states
    }

    /// The lists of codes, by number.
    pub(crate) fn lists(&self) -> &[ReadList]
        ensures { result.now ≡ self.now.lists }
    {
        &self.lists
    }
}
