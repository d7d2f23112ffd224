//! The letters that fit a character of a text.

ghost use Rattle.std.specs.Prelude.{IfOk};
ghost use Rattle.std.specs.List.Sorted.{IsStrictlyIncreasing};
ghost use Rattle.ux_alphabet.specs.Letters.{Fits};
ghost use Rattle.ux_dict.specs.Forms.{IsChosen};
ghost use Rattle.ux_dict.specs.Parts.{AreCandidates};

use std::alloc::{AllocError, Global};
use ux_alphabet::Alphabet;

/// The letters that fit the character, in order. Takes a step a letter.
pub(crate) fn fitting_letters(
    alloc: Global,
    letters: &[char],
    c: char,
    alphabet: &Alphabet,
) -> Result<Vec<char>, AllocError>
    requires { IsStrictlyIncreasing letters.now }
    ensures { IfOk result (λ found. AreCandidates alphabet.now letters.now c found.items) }
{
    chosen_letters(alloc, letters, c, alphabet)
}

fn chosen_letters(
    alloc: Global,
    letters: &[char],
    c: char,
    alphabet: &Alphabet,
) -> Result<Vec<char>, AllocError>
    ensures { IfOk result (λ found.
        IsChosen (λ letter. Fits alphabet.now letter c) letters.now found.items) }
{
    let mut found = Vec::new(alloc);
    for letter in letters {
        if alphabet.fits(*letter, c) {
            found.push(*letter)?;
        }
    }
    Ok(found)
}
