//! The entries of the words of a graph, each once, in the order of their lines.

ghost use Rattle.std.specs.Prelude.{◌≡◌, ◌↔◌, ℕ, List, Contains, IfOk, OnOk, encode_utf8_all};
ghost use Rattle.std.specs.List.{IsDistinct};
ghost use Rattle.std.specs.List.Sorted.{IsStrictlySortedBy};
ghost use Rattle.ux_inflect.specs.declared.config.Config.{Config};
ghost use Rattle.ux_inflect.specs.declared.outcomes.Line.{Line};
ghost use Rattle.ux_dela.specs.Printed.{printed};
ghost use Rattle.ux_inflect.specs.Inflected.{HasCodes};
ghost use Rattle.ux_inflect.specs.Outcomes.{entry_with, AreEntriesFor, AreListed, HasMoreLines, IsCodedAt, IsLineOf, IsLineOfSome, IsOnlyLine};
ghost use Rattle.ux_inflect.specs.Places.{place_of};

use crate::codes::codes_of;
use crate::config::Config;
use crate::form::Form;
use crate::refusing::is_over;
use indexmap::IndexSet;
use std::alloc::{AllocError, Global};
use std::hash::Hash;
use ux_base::{Mem, Txt};
use ux_dela::{Entry, Stem, print_delaf};

/// What a word leaves, a form and an output, with the line of the entry.
#[derive(PartialEq, Eq, PartialOrd, Ord, Hash, Drop)]
pub(crate) struct Line {
    pub text: Txt,
    pub form: Txt,
    pub output: Txt,
}

/// The entries of the configurations at which words end.
pub(crate) fn entries_of(alloc: Global, stem: &Stem, configs: &[Config]) -> Mem<Vec<Entry>>
    requires { (config : Config) → Contains configs.now config → IsCodedAt (place_of config) }
    ensures { IfOk result (λ entries. AreListed stem.now configs.now entries.items) }
{
    let lines = lines_of(alloc, stem, configs)?;
    let sorted = in_order(alloc, lines)?;
    let entries = entries_in(alloc, stem, sorted.as_slice())?;
    Ok(entries)
}

/// The lines of the configurations at which words end, each once.
fn lines_of(alloc: Global, stem: &Stem, configs: &[Config]) -> Mem<IndexSet<Line>>
    requires { (config : Config) → Contains configs.now config → IsCodedAt (place_of config) }
    ensures { IfOk result (λ lines. (line : Line) →
        Contains lines.keys line ↔ IsLineOfSome stem.now configs.now line) }
{
    let mut lines = IndexSet::new(alloc);
    for config in configs {
        put_line(alloc, stem, &mut lines, config)?;
    }
    Ok(lines)
}

/// Puts the line of the configuration, if a word ends there.
fn put_line(alloc: Global, stem: &Stem, lines: &mut IndexSet<Line>, config: &Config) -> Mem<()>
    requires { IsCodedAt (place_of config.now) }
    ensures { OnOk result (HasMoreLines lines.old.keys (IsLineOf stem.now (place_of config.now))
        lines.new.keys) }
{
    match line_of(alloc, stem, config)? {
        Some(line) => insert_line(lines, line),
        None => Ok(()),
    }
}

/// Puts the line, if it isn't there yet.
fn insert_line(lines: &mut IndexSet<Line>, line: Line) -> Mem<()>
    ensures { OnOk result (HasMoreLines lines.old.keys (λ other. other ≡ line) lines.new.keys) }
{
    lines.insert(line)?;
    Ok(())
}

/// The line of the configuration, if a word ends there.
fn line_of(alloc: Global, stem: &Stem, config: &Config) -> Mem<Option<Line>>
    requires { IsCodedAt (place_of config.now) }
    ensures { IfOk result (IsOnlyLine stem.now (place_of config.now)) }
{
    if !is_over(config) {
        return Ok(None);
    }
    match &config.form {
        Some(form) => {
            let line = line_with(alloc, stem, form, config.output.as_str())?;
            Ok(Some(line))
        },
        None => Ok(None),
    }
}

/// The line of a form and an output.
fn line_with(alloc: Global, stem: &Stem, form: &Form, output: &str) -> Mem<Line>
    ensures form { IfOk result (λ line. line.form ≡ encode_utf8_all form.now.left.items) }
    ensures output { IfOk result (λ line. line.output ≡ output.now) }
    ensures text { IfOk result (λ line. (codes : List (List ℕ)) → HasCodes output.now codes →
        line.text ≡ printed (entry_with stem.now line.form codes)) }
{
    let form = text_of_characters(alloc, form.left.as_slice())?;
    let output = Txt::from_str(alloc, output)?;
    let entry = entry_of(alloc, stem, &form, &output)?;
    let text = Txt::new(print_delaf(alloc, &entry)?);
    Ok(Line { text, form, output })
}

/// The characters as a text.
#[tactic(auto, using(crate::proofs::OutcomeLemmas::encode_more))]
fn text_of_characters(alloc: Global, characters: &[char]) -> Mem<Txt>
    ensures { IfOk result (λ text. text ≡ encode_utf8_all characters.now) }
{
    let mut text = String::new(alloc);
    for c in characters {
        text.push(*c)?;
    }
    Ok(Txt::new(text))
}

/// The lines in order.
fn in_order<T: Ord + Hash + Drop>(alloc: Global, set: IndexSet<T>) -> Mem<Vec<T>>
    ensures in_order { IfOk result (λ sorted. IsStrictlySortedBy T.cmp sorted.items) }
    ensures same { IfOk result (λ sorted. (item : T) →
        Contains sorted.items item ↔ Contains set.keys item) }
{
    let mut sorted = listed(alloc, set)?;
    sorted.sort_unstable();
    Ok(sorted)
}

/// The items of a set, as a list.
fn listed<T: Eq + Hash + Drop>(alloc: Global, set: IndexSet<T>) -> Result<Vec<T>, AllocError>
    ensures items { IfOk result (λ listed. listed.items ≡ set.keys) }
    ensures once { IfOk result (λ listed. IsDistinct T.eq listed.items) }
{
    set.into_iter().collect(alloc)
}

/// The entries of the lines.
fn entries_in(alloc: Global, stem: &Stem, lines: &[Line]) -> Mem<Vec<Entry>>
    ensures { IfOk result (λ entries. AreEntriesFor stem.now lines.now entries.items) }
{
    let mut entries = Vec::with_capacity(alloc, lines.len())?;
    for line in lines {
        let entry = entry_of(alloc, stem, &line.form, &line.output)?;
        entries.push(entry)?;
    }
    Ok(entries)
}

/// The entry of a form and an output.
fn entry_of(alloc: Global, stem: &Stem, form: &Txt, output: &Txt) -> Mem<Entry>
    ensures { IfOk result (λ entry. (codes : List (List ℕ)) → HasCodes output.now codes →
        entry ≡ entry_with stem.now form.now codes) }
{
    let form = Txt::from_str(alloc, form.as_str())?;
    let lemma = Txt::from_str(alloc, stem.lemma.as_str())?;
    let gram = Txt::from_str(alloc, stem.gram.as_str())?;
    let sem = stem.sem.clone()?;
    let infl = codes_of(alloc, output.as_str())?;
    Ok(Entry {
        form,
        lemma,
        gram,
        sem,
        infl,
    })
}
