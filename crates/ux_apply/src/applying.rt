//! The entries that apply to one text.

ghost use Rattle.std.specs.Prelude.{List, All, IfOk, OnOk};
ghost use Rattle.ux_dela.specs.Sound.{IsSound};
ghost use Rattle.ux_dela.specs.declared.entry.Entry.{Entry};
ghost use Rattle.ux_dict.specs.Content.{AreDifferent};
ghost use Rattle.ux_dict.specs.Forms.{IsFitting};
ghost use Rattle.ux_lexicon.specs.Reached.{IsReachedBy};
ghost use Rattle.ux_apply.specs.Applying.{AreApplying, AreFound, content_at};
ghost use Rattle.ux_apply.specs.Cursors.{WhereLedBy};
ghost use Rattle.ux_apply.specs.Kept.{AreAdded};

use crate::cursors::Cursor;
use crate::priority::Priority;
use std::alloc::Global;
use ux_alphabet::Alphabet;
use ux_base::Mem;
use ux_dela::Entry;
use ux_dict::different;
use ux_lexicon::Reached;

/// The entries that apply to the text, which led to the cursors: those of the highest priority of
/// which some dictionary has any. Takes no memory where no form ends.
pub(crate) fn applying_there(
    alloc: Global,
    cursors: &[Cursor<'_>],
    text: &str,
    alphabet: &Alphabet,
) -> Mem<Vec<Entry>>
    ensures applies { IfOk result (λ entries. WhereLedBy alphabet.now text.now cursors.now
        (λ dics. AreApplying alphabet.now dics text.now entries.items)) }
    ensures sound { IfOk result (λ entries. WhereLedBy alphabet.now text.now cursors.now
        (λ _. All IsSound entries.items)) }
{
    let high = found(alloc, cursors, text, alphabet, Priority::High)?;
    if !high.is_empty() {
        return Ok(high);
    }
    let normal = found(alloc, cursors, text, alphabet, Priority::Normal)?;
    if !normal.is_empty() {
        return Ok(normal);
    }
    found(alloc, cursors, text, alphabet, Priority::Low)
}

/// The entries that dictionaries of one priority have for the text, each once.
fn found(
    alloc: Global,
    cursors: &[Cursor<'_>],
    text: &str,
    alphabet: &Alphabet,
    priority: Priority,
) -> Mem<Vec<Entry>>
    ensures found { IfOk result (λ entries. WhereLedBy alphabet.now text.now cursors.now
        (λ dics. AreFound alphabet.now dics text.now priority entries.items)) }
    ensures sound { IfOk result (λ entries. WhereLedBy alphabet.now text.now cursors.now
        (λ _. All IsSound entries.items)) }
{
    let fitting = fitting_entries(alloc, cursors, text, alphabet, priority)?;
    each_once(alloc, fitting)
}

/// The entries of all dictionaries of one priority that fit the text, one dictionary after the
/// other.
fn fitting_entries(
    alloc: Global,
    cursors: &[Cursor<'_>],
    text: &str,
    alphabet: &Alphabet,
    priority: Priority,
) -> Mem<Vec<Entry>>
    ensures fitting { IfOk result (λ entries. WhereLedBy alphabet.now text.now cursors.now (λ dics.
        IsFitting alphabet.now text.now (content_at priority dics) entries.items)) }
    ensures sound { IfOk result (λ entries. WhereLedBy alphabet.now text.now cursors.now
        (λ _. All IsSound entries.items)) }
{
    let mut entries = Vec::new(alloc);
    for cursor in cursors {
        if cursor.priority.is(priority) {
            push_ending(&mut entries, alloc, &cursor.reached, text, alphabet)?;
        }
    }
    Ok(entries)
}

/// Puts the entries of a dictionary last that fit the text, which led to the place.
fn push_ending(
    entries: &mut Vec<Entry>,
    alloc: Global,
    reached: &Reached<'_>,
    text: &str,
    alphabet: &Alphabet,
) -> Mem<()>
    ensures added { OnOk result ((content : List Entry) →
        IsReachedBy alphabet.now content text.now reached.now →
        AreAdded alphabet.now text.now content entries.old.items entries.new.items) }
    ensures sound { OnOk result ((content : List Entry) →
        IsReachedBy alphabet.now content text.now reached.now → All IsSound entries.old.items →
        All IsSound entries.new.items) }
{
    let mut more = reached.ending(alloc, text, alphabet)?;
    if entries.is_empty() {
        // Mostly one dictionary alone has any: its list serves as it is, with no room beyond.
        *entries = more;
        return Ok(());
    }
    entries.append(&mut more)?;
    Ok(())
}

/// The entries, each at its first place alone. Takes a step an entry, and no table for one alone.
fn each_once(alloc: Global, entries: Vec<Entry>) -> Mem<Vec<Entry>>
    ensures { IfOk result (λ once. AreDifferent entries.items once.items) }
{
    if entries.len() < 2 {
        return Ok(entries);
    }
    different(alloc, entries)
}
