//! A sketch of a run of entries: a number that is cheap to make.
//!
//! Entries with one list of codes have mostly one sketch, and those with different lists different
//! ones. No contract depends on it: a list that a sketch finds is compared with the entries.

use crate::pieces::{count_separators, split_piece};
use std::hash::{FoldHasher, Hasher};
use ux_dict::Stored;

/// The sketch of the entries. Takes a step a byte, and no memory.
pub(crate) fn sketch_of(entries: &[Stored]) -> u64 {
    let mut hasher = FoldHasher::default();
    for entry in entries {
        hasher.write(entry.printed_codes().as_bytes());
        match entry.other_lemma() {
            Some(lemma) => put_changes(&mut hasher, entry.form(), lemma),
            // No piece changes, so that how many there are is all that the code has of them.
            None => hasher.write_usize(count_separators(entry.form())),
        }
    }
    hasher.finish()
}

/// Puts how each piece of the lemma is made of that of the form.
fn put_changes(hasher: &mut FoldHasher, form: &str, lemma: &str) {
    let mut form_rest = form;
    let mut lemma_rest = lemma;
    while let Some(in_form) = split_piece(form_rest) {
        let Some(in_lemma) = split_piece(lemma_rest) else {
            break;
        };
        put_change(hasher, in_form.piece, in_lemma.piece);
        form_rest = in_form.behind;
        lemma_rest = in_lemma.behind;
    }
    put_change(hasher, form_rest, lemma_rest);
}

/// Puts how many bytes are taken off the form's piece, and what is added for the lemma's.
fn put_change(hasher: &mut FoldHasher, form: &str, lemma: &str) {
    let (taken, added) = behind_same_bytes(form.as_bytes(), lemma.as_bytes());
    hasher.write_usize(taken.len());
    hasher.write(added);
}

/// Both texts without the bytes that they have in common at the front.
fn behind_same_bytes<'a>(form: &'a [u8], lemma: &'a [u8]) -> (&'a [u8], &'a [u8]) {
    let mut form_rest = form;
    let mut lemma_rest = lemma;
    while let (Some((form_byte, form_behind)), Some((lemma_byte, lemma_behind))) = (
        form_rest.split_first(),
        lemma_rest.split_first(),
    ) {
        if form_byte != lemma_byte {
            break;
        }
        form_rest = form_behind;
        lemma_rest = lemma_behind;
    }
    (form_rest, lemma_rest)
}
