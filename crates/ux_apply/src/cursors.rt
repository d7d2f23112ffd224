//! Where a text leads in each dictionary.
//!
//! All dictionaries are gone along with a text piece by piece. What they have for a longer text is
//! found from where the shorter one led, so that no text is looked up from its first character
//! twice.

ghost use Rattle.std.specs.Prelude.{◌++◌, ℕ, List, [], IfOk, IsFalse};
ghost use Rattle.ux_alphabet.specs.Letters.{Letters};
ghost use Rattle.ux_dela.specs.declared.entry.Entry.{Entry};
ghost use Rattle.ux_apply.specs.declared.priority.Priority.{Priority};
ghost use Rattle.ux_apply.specs.Applying.{contents};
ghost use Rattle.ux_apply.specs.Cursors.{AreReachedBy, WhereLed};
ghost use Rattle.ux_apply.specs.Kept.{NoneBegins};

use crate::priority::Priority;
use std::alloc::Global;
use ux_alphabet::Alphabet;
use ux_base::Mem;
use ux_lexicon::{Lexicon, Reached};

/// Where a text leads in one dictionary.
#[derive(Drop)]
pub(crate) struct Cursor<'a> {
    /// The dictionary's priority.
    pub(crate) priority: Priority,
    pub(crate) reached: Reached<'a>,
}

/// Where the empty text leads.
pub(crate) fn begin<'a, L: Lexicon>(
    alloc: Global,
    dics: &'a [(Priority, L)],
) -> Mem<Vec<Cursor<'a>>>
    ensures { IfOk result (λ cursors. (alphabet : Letters) →
        AreReachedBy alphabet (contents L.content dics.now) [] cursors.items) }
{
    let mut cursors = Vec::new(alloc);
    for (priority, lexicon) in dics {
        let reached = lexicon.begin(alloc)?;
        cursors.push(Cursor {
            priority: *priority,
            reached,
        })?;
    }
    Ok(cursors)
}

/// Where the text so far leads with this one behind it. Takes a step a dictionary, as
/// `Reached::go_on` does.
pub(crate) fn go_on<'a>(
    alloc: Global,
    cursors: &[Cursor<'a>],
    text: &str,
    alphabet: &Alphabet,
) -> Mem<Vec<Cursor<'a>>>
    ensures { IfOk result (λ next. (dics : List (Priority × List Entry)) (front : List ℕ) →
        AreReachedBy alphabet.now dics front cursors.now →
        AreReachedBy alphabet.now dics (front ++ text.now) next.items) }
{
    let mut next = Vec::new(alloc);
    for cursor in cursors {
        let reached = cursor.reached.go_on(alloc, text, alphabet)?;
        next.push(Cursor {
            priority: cursor.priority,
            reached,
        })?;
    }
    Ok(next)
}

/// Where the text leads.
pub(crate) fn reach<'a, L: Lexicon>(
    alloc: Global,
    text: &str,
    alphabet: &Alphabet,
    dics: &'a [(Priority, L)],
) -> Mem<Vec<Cursor<'a>>>
    ensures { IfOk result (λ cursors.
        AreReachedBy alphabet.now (contents L.content dics.now) text.now cursors.items) }
{
    let cursors = begin(alloc, dics)?;
    go_on(alloc, &cursors, text, alphabet)
}

/// Whether some form may begin with characters that fit the text so far.
pub(crate) fn may_go_on(cursors: &[Cursor<'_>]) -> bool
    ensures { IsFalse result → (text : List ℕ) →
        WhereLed text cursors.now (λ alphabet dics. NoneBegins alphabet dics text) }
{
    for cursor in cursors {
        if cursor.reached.may_go_on() {
            return true;
        }
    }
    false
}
