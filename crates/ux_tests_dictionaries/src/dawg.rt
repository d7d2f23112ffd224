//! Minimal automata of a few forms, with their states as they were found by hand.
//!
//! The least states of forms are shown by rows of `unitex_rows`, in the images that `compress`
//! writes.

use crate::comparing::compare;
use std::alloc::{AllocError, Global};
use ux_base::{Lst, Mem};
use ux_dawg::{
    Builder, Dawg, Edge, Form, Items, State, are_sorted, are_states, build, have_few_letters,
};

/// The forms of a row: each with its number.
type Forms = &'static [(&'static str, u32)];

/// The forms, as characters.
fn forms_of(alloc: Global, row: Forms) -> Result<Vec<Form>, AllocError> {
    let mut forms = Vec::new(alloc);
    for (text, code) in row {
        forms.push(Form {
            letters: Lst::new(text.chars().collect(alloc)?),
            code: *code,
        })?;
    }
    Ok(forms)
}

/// The automaton of those forms that may be added, one after another.
fn added(alloc: Global, row: Forms) -> Mem<Dawg> {
    let forms = forms_of(alloc, row)?;
    let mut builder = Builder::new(alloc);
    for form in &forms {
        if builder.may_add(form.letters.as_slice()) {
            builder = builder.add(form.letters.as_slice(), form.code)?;
        }
    }
    builder.finish()
}

/// The states of a row: each with its number of a form, if it has one, and its edges.
type States = &'static [(Option<u32>, &'static [(char, u32)])];

/// The states.
fn states_of(alloc: Global, row: States) -> Mem<Vec<State>> {
    let mut states = Vec::new(alloc);
    for (code, edges) in row {
        let mut items = Items::empty(alloc);
        for (letter, target) in *edges {
            items.push(Edge {
                letter: *letter,
                target: *target,
            })?;
        }
        states.push(State {
            code: *code,
            edges: items,
        })?;
    }
    Ok(states)
}

/// The state of this number: its number of a form or `-`, and its edges.
fn state_text(alloc: Global, automaton: &Dawg, number: usize) -> Mem<String> {
    let mut text = match automaton.final_of(number) {
        Some(code) => format!(in alloc; "{code}")?,
        None => String::from_str(alloc, "-")?,
    };
    for edge in automaton.edges(number) {
        text.push_str(format!(in alloc; "{}{}", edge.letter, edge.target)?.as_str())?;
    }
    Ok(text)
}

/// The states by number: `0 -s0 `.
fn shown(alloc: Global, automaton: &Dawg) -> Mem<String> {
    let mut text = String::new(alloc);
    for number in 0..automaton.len() {
        text.push_str(state_text(alloc, automaton, number)?.as_str())?;
        text.push(' ')?;
    }
    Ok(text)
}

/// The automaton of the forms, or nothing where they aren't sorted or are too long.
fn built(alloc: Global, row: Forms) -> Mem<String> {
    let forms = forms_of(alloc, row)?;
    if !are_sorted(&forms) || !have_few_letters(&forms) {
        return Ok(String::new(alloc));
    }
    let automaton = build(alloc, &forms)?;
    shown(alloc, &automaton)
}

/// The automaton of those forms that may be added.
fn shown_added(alloc: Global, row: Forms) -> Mem<String> {
    let automaton = added(alloc, row)?;
    shown(alloc, &automaton)
}

/// The automaton of the states, or nothing where they make none.
fn kept(alloc: Global, row: States) -> Mem<String> {
    let states = states_of(alloc, row)?;
    if !are_states(&states) {
        return Ok(String::new(alloc));
    }
    let automaton = Dawg::of_states(alloc, &states)?;
    shown(alloc, &automaton)
}

#[test]
fn adds_the_forms_that_may_follow(rt: HostRuntime) {
    // Forms, the automaton of all of them, if they are sorted, and that of those that may follow.
    const ROWS: &[(&str, Forms, &str, &str)] = &[
        ("no form", &[], "- ", "- "),
        (
            "each may follow",
            &[("cat", 0), ("cats", 1)],
            "1 0s0 -t1 -a2 -c3 ",
            "1 0s0 -t1 -a2 -c3 ",
        ),
        ("an empty form alone", &[("", 0)], "", "- "),
        ("an empty form", &[("", 0), ("a", 1)], "", "1 -a0 "),
        ("a form twice", &[("a", 0), ("a", 1)], "", "0 -a0 "),
        (
            "a front of the last form",
            &[("ab", 0), ("a", 1)],
            "",
            "0 -b0 -a1 ",
        ),
        (
            "one that comes too late",
            &[("b", 0), ("a", 1), ("c", 0)],
            "",
            "0 -b0c0 ",
        ),
    ];
    for (name, forms, all, some) in ROWS {
        let got = built(rt.alloc(), forms).ok();
        compare(&rt, name, got.as_deref(), Some(*all));
        let got = shown_added(rt.alloc(), forms).ok();
        compare(&rt, name, got.as_deref(), Some(*some));
    }
}

#[test]
fn keeps_the_states_that_are_given(rt: HostRuntime) {
    const ROWS: &[(&str, States, &str)] = &[
        ("one state", &[(Some(7), &[])], "7 "),
        (
            "equal states",
            &[
                (Some(0), &[]),
                (Some(0), &[]),
                (None, &[('a', 0), ('b', 1)]),
            ],
            "0 0 -a0b1 ",
        ),
        (
            "a state to which nothing leads",
            &[(None, &[]), (Some(7), &[])],
            "- 7 ",
        ),
        ("no state", &[], ""),
        ("an edge to the state itself", &[(None, &[('a', 0)])], ""),
        (
            "an edge to a higher number",
            &[(None, &[('a', 1)]), (Some(0), &[])],
            "",
        ),
        (
            "characters that descend",
            &[(Some(0), &[]), (None, &[('b', 0), ('a', 0)])],
            "",
        ),
        (
            "a character twice",
            &[(Some(0), &[]), (None, &[('a', 0), ('a', 0)])],
            "",
        ),
    ];
    for (name, states, want) in ROWS {
        let got = kept(rt.alloc(), states).ok();
        compare(&rt, name, got.as_deref(), Some(*want));
    }
}

/// The states of `ab` with 0 and `c` with 1: `0 -b0 1 -a1c2 `.
const TWO: Forms = &[("ab", 0), ("c", 1)];

/// The state to which the characters lead, if they lead to one.
fn reached(automaton: &Dawg, letters: &[char]) -> Option<usize> {
    let mut state = automaton.root();
    for letter in letters {
        state = automaton.step(state, *letter)? as usize;
    }
    Some(state)
}

/// The number of the form, if it is one, as the steps tell it, and as the automaton does.
fn found(alloc: Global, form: &str) -> Mem<(Option<u32>, Option<u32>)> {
    let letters = form.chars().collect::<Vec<_>>(alloc)?;
    let automaton = added(alloc, TWO)?;
    let by_steps = match reached(&automaton, &letters) {
        Some(number) => automaton.final_of(number),
        None => None,
    };
    Ok((by_steps, automaton.number_of(&letters)))
}

/// The character and the target of an edge of a state.
fn edge(alloc: Global, number: usize, place: usize) -> Mem<Option<(char, u32)>> {
    let edge = added(alloc, TWO)?.edge(number, place);
    Ok(edge.map(|edge| (edge.letter, edge.target)))
}

#[test]
fn finds_the_forms_and_their_edges(rt: HostRuntime) {
    const FORMS: &[(&str, Option<u32>)] = &[
        ("ab", Some(0)),
        ("c", Some(1)),
        ("a", None),
        ("abc", None),
        ("b", None),
        ("", None),
    ];
    const EDGES: &[(&str, usize, usize, Option<(char, u32)>)] = &[
        ("the root's first", 3, 0, Some(('a', 1))),
        ("the root's second", 3, 1, Some(('c', 2))),
        ("past the root's last", 3, 2, None),
        ("in the middle", 1, 0, Some(('b', 0))),
        ("of an end", 0, 0, None),
        ("past the root", 4, 0, None),
    ];
    for (form, want) in FORMS {
        let got = found(rt.alloc(), form).ok();
        compare(&rt, form, got, Some((*want, *want)));
    }
    for (name, number, place, want) in EDGES {
        let got = edge(rt.alloc(), *number, *place).ok();
        compare(&rt, name, got, Some(*want));
    }
}
