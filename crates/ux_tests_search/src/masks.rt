//! Masks as no command shows them: texts that stand in no graph, masks that are the same, and one
//! that asks for no entry.
//!
//! What each mask text says, and which are refused, is shown by rows of `unitex_rows`: which
//! entries are taken, how a mask is spelled, and the place that is named.

use crate::comparing::compare;
use std::alloc::Global;
use ux_dela::read_delaf;
use ux_masks::{Mask, MaskError};

/// The place of a refusal.
fn place_of(alloc: Global, text: &str) -> Option<usize> {
    match Mask::read(alloc, text) {
        Err(MaskError::BadMask { place }) => Some(place),
        Ok(_) | Err(MaskError::NoMemory) => None,
    }
}

/// Whether the second mask, copied, is the first.
fn are_same(alloc: Global, text: &str, other: &str) -> Result<bool, MaskError> {
    let copy = Mask::read(alloc, other)?.copy()?;
    Ok(Mask::read(alloc, text)?.same(&copy))
}

/// Whether an entry of the lines meets the mask, where both are read.
fn is_met(alloc: Global, text: &str, lines: &str) -> Option<bool> {
    let entries = read_delaf(alloc, lines).ok()?;
    let mask = Mask::read(alloc, text).ok()?;
    Some(entries.iter().any(|entry| mask.meets(entry)))
}

#[test]
fn masks_are_read_compared_and_met(rt: HostRuntime) {
    // The empty mask, a backslash that ends one, `<E>` and a bare `>` are read otherwise in a
    // graph.
    const PLACES: &[(&str, usize)] = &[
        ("", 0),
        ("a\\", 2),
        ("\\", 1),
        ("+\\", 0),
        ("E", 1),
        ("\u{e9}>", 1),
    ];
    const TEXTS: &[&str] = &["WORD", "!WORD", "N", "!N", "be.V:P3s", "cats,cat.N~Hum"];
    const MET: &[(&str, bool)] = &[("N:p", true), ("V", false), ("WORD", false)];
    for (text, want) in PLACES {
        compare(&rt, text, place_of(rt.alloc(), text), Some(*want));
    }
    for text in TEXTS {
        for other in TEXTS {
            let same = are_same(rt.alloc(), text, other);
            compare(&rt, text, (*other, same), (*other, Ok(text == other)));
        }
    }
    for (text, want) in MET {
        let met = is_met(rt.alloc(), text, "cats,cat.N:p");
        compare(&rt, text, met, Some(*want));
    }
}
