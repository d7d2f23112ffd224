//! Steps along the states of a front. Fronts that are read or refused, and images as a whole, are rows
//! of `unitex_rows`.

use crate::comparing::compare;
use std::alloc::Global;
use ux_image_reader::{ImageError, read_front};

/// The front of `cat,.N:s` and `cats,cat.N:p`: state 4 is the root, state 0 ends `cats`.
const CATS: &[u8] = b"UXUDI\x02\r\n\x05\0\0\0\x02\0\0\0\
    \x01\0\0\0\0\0\0\0\
    \x02\0\0\0\x01\0\0\0s\0\0\0\0\0\0\0\
    \0\0\0\0\x01\0\0\0t\0\0\0\x01\0\0\0\
    \0\0\0\0\x01\0\0\0a\0\0\0\x02\0\0\0\
    \0\0\0\0\x01\0\0\0c\0\0\0\x03\0\0\0";

/// Where the edge of a character leads from a state of a front.
fn step(
    alloc: Global,
    front: &[u8],
    number: usize,
    letter: char,
) -> Result<Option<u32>, ImageError> {
    let front = read_front(alloc, front)?;
    Ok(front.states.step(number, letter))
}

#[test]
fn steps_along_the_states_of_a_front(rt: HostRuntime) {
    const ROWS: &[(&str, usize, char, Option<u32>)] = &[
        ("from the root", 4, 'c', Some(3)),
        ("to the end of cat", 2, 't', Some(1)),
        ("to the end of cats", 1, 's', Some(0)),
        ("a lower letter", 4, 'b', None),
        ("a higher letter", 4, 'd', None),
        ("from a state without edges", 0, 's', None),
        ("from no state", 5, 'c', None),
    ];
    for (name, number, letter, want) in ROWS {
        let got = step(rt.alloc(), CATS, *number, *letter);
        compare(&rt, name, got, Ok(*want));
    }
}
