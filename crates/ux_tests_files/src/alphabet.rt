//! Which characters of a text no other character of an entry fits.
//!
//! Which letters the lines of an alphabet make, and which of them fit, is shown by rows of
//! `unitex_rows`.

use crate::comparing::compare;
use std::alloc::Global;
use ux_alphabet::{Alphabet, AlphabetError};

/// Whether no other character of an entry fits this one of a text, by the alphabet of a file.
fn fits_alone(alloc: Global, file: &str, text: char) -> Result<bool, AlphabetError> {
    Ok(Alphabet::read(alloc, file)?.fits_alone(text))
}

#[test]
fn a_character_may_fit_alone(rt: HostRuntime) {
    const ROWS: &[(&str, char, bool)] = &[
        ("Aa", 'a', true),
        ("Aa", 'A', false),
        ("Aa", ' ', true),
        ("AA", 'A', true),
        ("#AZ", 'A', true),
        ("x", 'x', true),
        (" x", ' ', false),
        ("{x", '{', false),
        ("{x", '}', true),
        ("", 'é', true),
        ("Éé", 'É', false),
    ];
    for (file, text, want) in ROWS {
        let got = fits_alone(rt.alloc(), file, *text);
        compare(&rt, file, (*text, got), (*text, Ok(*want)));
    }
}
