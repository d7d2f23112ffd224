//! The forms that end in a place.

ghost use Rattle.std.specs.Prelude.{◌≡◌, All, IfOk, IsTrue, Some};
ghost use Rattle.std.specs.Str.{chars};
ghost use Rattle.ux_alphabet.specs.Letters.{FitsAlone};
ghost use Rattle.ux_dawg.specs.Paths.{MakeAutomaton};
ghost use Rattle.ux_dict.specs.Forms.{IsChosen};
ghost use Rattle.ux_image_lists.specs.Sizes.{forms_of};
ghost use Rattle.ux_image_look_ups.specs.Steps.{EndsBy};
ghost use Rattle.ux_image_look_ups.specs.Ways.{FitsText, HaveForms, LeadsBy};

use crate::places::Place;
use crate::spelling::spelled;
use std::alloc::Global;
use ux_alphabet::Alphabet;
use ux_base::{Lst, Mem};
use ux_dawg::{Form, States};

/// The forms that fit the text, which led to the place, in order. Takes no memory where none ends
/// there. Where no other letter fits any character, the form is the text; else the text is gone along
/// once more, with a step a character for each form and for each state on the way.
pub fn ending(
    alloc: Global,
    states: &States,
    place: &Place,
    text: &str,
    alphabet: &Alphabet,
) -> Mem<Vec<Form>>
    requires automaton { MakeAutomaton states.now }
    requires forms { HaveForms states.now }
    ensures { IfOk result (λ found.
        LeadsBy states.now alphabet.now (chars text.now) place.now →
        IsChosen (FitsText alphabet.now (chars text.now)) (forms_of states.now) found.items) }
{
    match place.code(states) {
        Some(code) => fitting(alloc, states, place, code, text, alphabet),
        None => Ok(Vec::new(alloc)),
    }
}

/// The forms that fit the text, which led to the place. A form with this number of a list ends in a
/// state of it.
fn fitting(
    alloc: Global,
    states: &States,
    place: &Place,
    code: u32,
    text: &str,
    alphabet: &Alphabet,
) -> Mem<Vec<Form>>
    requires automaton { MakeAutomaton states.now }
    requires code { EndsBy states.now place.now (Some code) }
    ensures { IfOk result (λ found.
        LeadsBy states.now alphabet.now (chars text.now) place.now →
        IsChosen (FitsText alphabet.now (chars text.now)) (forms_of states.now) found.items) }
{
    let _place = place;
    let letters = chars_of(alloc, text)?;
    if !fit_alone(alphabet, &letters) {
        return spelled(alloc, states, &letters, alphabet);
    }
    let mut found = Vec::new(alloc);
    found.push(Form {
        letters: Lst::new(letters),
        code,
    })?;
    Ok(found)
}

/// Whether no other letter fits any of the characters.
fn fit_alone(alphabet: &Alphabet, letters: &[char]) -> bool
    ensures { IsTrue result → All (FitsAlone alphabet.now) letters.now }
{
    for c in letters {
        if !alphabet.fits_alone(*c) {
            return false;
        }
    }
    true
}

/// The characters of the text.
fn chars_of(alloc: Global, text: &str) -> Mem<Vec<char>>
    ensures { IfOk result (λ letters. letters.items ≡ chars text.now) }
{
    let mut letters = Vec::with_capacity(alloc, text.len())?;
    for c in text.chars() {
        letters.push(c)?;
    }
    Ok(letters)
}
