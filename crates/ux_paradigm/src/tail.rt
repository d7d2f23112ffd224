//! What is kept of the entries of an ending.

ghost use Rattle.std.specs.Prelude.{◌≡◌, IfOk, IfSome, map};
ghost use Rattle.ux_inflect.specs.Inflected.{AreInflected};
ghost use Rattle.ux_inflect.specs.Refusing.{IsAccepted};
ghost use Rattle.ux_paradigm.specs.Kept.{IsKept, is_any_slashed as has_slashed, is_slashed as begins_slashed, tail_of as tail_by};

use crate::printing::{end_of_line, form_text, lemma_alone};
use std::alloc::Global;
use ux_base::{Mem, NoMemory, Txt};
use ux_dela::{Entry, Stem};
use ux_inflect::{InflectError, inflect};
use ux_net::Net;

/// The end of the line of a form, of which the beginning isn't known.
#[derive(Drop)]
pub(crate) struct Tail {
    /// What the form ends in, as it is printed.
    pub form: Txt,
    /// Whether the form is the lemma.
    pub is_lemma: bool,
    /// The inflection codes, and the line feed.
    pub codes: Txt,
}

/// The ends of the lines of an ending. None where the class doesn't accept it, or a form of it begins
/// with a `/`, which is printed otherwise where it begins a line.
pub(crate) fn tails_of(alloc: Global, ending: &str, net: &Net) -> Mem<Option<Vec<Tail>>>
    ensures { IfOk result (λ found. IfSome found (λ tails.
        IsKept net.now ending.now tails.items)) }
{
    let stem = lemma_alone(alloc, ending)?;
    match accepted_entries(alloc, &stem, net)? {
        Some(entries) => {
            if is_any_slashed(&entries) {
                return Ok(None);
            }
            let tails = tails_in(alloc, ending, &entries)?;
            Ok(Some(tails))
        },
        None => Ok(None),
    }
}

/// The entries of a stem, if the class accepts it.
fn accepted_entries(alloc: Global, stem: &Stem, net: &Net) -> Mem<Option<Vec<Entry>>>
    ensures { IfOk result (λ found. IfSome found (λ entries.
        IsAccepted stem.now net.now × AreInflected stem.now net.now entries.items)) }
{
    match inflect(alloc, stem, net) {
        Ok(entries) => Ok(Some(entries)),
        Err(InflectError::NoMemory) => Err(NoMemory),
        Err(_) => Ok(None),
    }
}

/// Whether a `/` begins one of the forms.
fn is_any_slashed(entries: &[Entry]) -> bool
    ensures { result ≡ has_slashed entries.now }
{
    entries.iter().any(|entry| is_slashed(entry.form.as_str()))
}

/// Whether a `/` begins the text.
fn is_slashed(text: &str) -> bool
    ensures { result ≡ begins_slashed text.now }
{
    match text.as_bytes().first() {
        Some(byte) => *byte == b'/',
        None => false,
    }
}

/// The ends of the lines.
#[tactic(auto, using(ux_inflect::proofs::ListLemmas::map_more))]
fn tails_in(alloc: Global, ending: &str, entries: &[Entry]) -> Mem<Vec<Tail>>
    ensures { IfOk result (λ tails. tails.items ≡ map (tail_by ending.now) entries.now) }
{
    let mut tails = Vec::with_capacity(alloc, entries.len())?;
    for entry in entries {
        let tail = tail_of(alloc, ending, entry)?;
        tails.push(tail)?;
    }
    Ok(tails)
}

/// The end of the line of an entry.
fn tail_of(alloc: Global, ending: &str, entry: &Entry) -> Mem<Tail>
    ensures { IfOk result (λ tail. tail ≡ tail_by ending.now entry.now) }
{
    let form = Txt::new(form_text(alloc, entry.form.as_str())?);
    let codes = Txt::new(end_of_line(alloc, &entry.infl)?);
    Ok(Tail {
        form,
        is_lemma: ending == entry.form.as_str(),
        codes,
    })
}
