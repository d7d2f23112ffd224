//! The lines of entries, and the parts that they are made of.

ghost use Rattle.std.specs.Prelude.{◌≡◌, ◌++◌, [], IfOk, OnOk, codes, cond, string_bytes};
ghost use Rattle.std.specs.List.{flat_map};
ghost use Rattle.ux_dela.specs.Printed.{printed_list};
ghost use Rattle.ux_paradigm.specs.Behind.{of_stem};
ghost use Rattle.ux_paradigm.specs.Kept.{alone, form_text as text_of_form, lines_by, middle as middle_of};
ghost use Rattle.ux_paradigm.specs.Lines.{line_of};

use crate::tail::Tail;
use std::alloc::Global;
use ux_base::{Mem, Txt};
use ux_dela::{Codes, Entry, Joined, Stem, Texts, print_codes, print_delaf};

/// The lines of the entries.
#[tactic(auto, using(ux_inflect::proofs::ListLemmas::joined_next))]
pub(crate) fn entry_lines(alloc: Global, entries: &[Entry]) -> Mem<String>
    ensures { IfOk result (λ lines. string_bytes lines ≡ flat_map line_of entries.now) }
{
    let mut lines = String::new(alloc);
    for entry in entries {
        put_line(alloc, entry, &mut lines)?;
    }
    Ok(lines)
}

/// Adds the line of an entry.
fn put_line(alloc: Global, entry: &Entry, lines: &mut String) -> Mem<()>
    ensures { OnOk result
        (string_bytes lines.new ≡ string_bytes lines.old ++ line_of entry.now) }
{
    let line = print_delaf(alloc, entry)?;
    lines.push_str(line.as_str())?;
    lines.push('\n')?;
    Ok(())
}

/// The lines of a stem whose lemma begins with the front, by the ends of the lines of its ending.
pub(crate) fn tail_lines(alloc: Global, front: &str, stem: &Stem, tails: &[Tail]) -> Mem<String>
    ensures { IfOk result (λ lines. string_bytes lines ≡ lines_by front.now stem.now tails.now) }
{
    let front = form_text(alloc, front)?;
    let apart = middle(alloc, stem, stem.lemma.as_str())?;
    let same = middle(alloc, stem, "")?;
    let mut lines = String::new(alloc);
    put_tails(
        front.as_str(),
        apart.as_str(),
        same.as_str(),
        tails,
        &mut lines,
    )?;
    Ok(lines)
}

/// Adds a line for each tail: behind the front, and with what stands before the codes of a form that
/// isn't the lemma, or of one that is.
#[tactic(auto, using(ux_inflect::proofs::ListLemmas::joined_next))]
fn put_tails(front: &str, apart: &str, same: &str, tails: &[Tail], lines: &mut String) -> Mem<()>
    ensures { OnOk result (string_bytes lines.new ≡ string_bytes lines.old
        ++ flat_map (λ tail. front.now ++ (tail.form
        ++ (cond tail.is_lemma same.now apart.now ++ tail.codes))) tails.now) }
{
    for tail in tails {
        let middle = if tail.is_lemma { same } else { apart };
        put_tail(front, middle, tail, lines)?;
    }
    Ok(())
}

/// Adds the line of a tail.
fn put_tail(front: &str, middle: &str, tail: &Tail, lines: &mut String) -> Mem<()>
    ensures { OnOk result (string_bytes lines.new ≡ string_bytes lines.old
        ++ (front.now ++ (tail.now.form ++ (middle.now ++ tail.now.codes)))) }
{
    lines.push_str(front)?;
    lines.push_str(tail.form.as_str())?;
    lines.push_str(middle)?;
    lines.push_str(tail.codes.as_str())?;
    Ok(())
}

/// The form as it is printed.
pub(crate) fn form_text(alloc: Global, form: &str) -> Mem<String>
    ensures { IfOk result (λ text. string_bytes text ≡ text_of_form form.now) }
{
    let entry = bare_entry(alloc, form)?;
    let mut line = print_delaf(alloc, &entry)?;
    // A line without codes of a form that is its own lemma ends in a comma and a dot.
    line.truncate(line.len() - 2);
    Ok(line)
}

/// The entry of a form that is its own lemma, without codes.
fn bare_entry(alloc: Global, form: &str) -> Mem<Entry>
    ensures { IfOk result (λ entry. entry ≡ of_stem (alone form.now) form.now []) }
{
    Ok(Entry {
        form: Txt::from_str(alloc, form)?,
        lemma: Txt::from_str(alloc, form)?,
        gram: no_text(alloc),
        sem: no_codes(alloc)?,
        infl: no_codes(alloc)?,
    })
}

/// What stands between a form and its own codes, where the form isn't the lemma. Where the lemma is
/// empty, what stands there where it is.
fn middle(alloc: Global, stem: &Stem, lemma: &str) -> Mem<String>
    ensures { IfOk result (λ text. string_bytes text ≡ middle_of stem.now lemma.now) }
{
    let entry = Entry {
        form: no_text(alloc),
        lemma: Txt::from_str(alloc, lemma)?,
        gram: Txt::from_str(alloc, stem.gram.as_str())?,
        sem: stem.sem.clone()?,
        infl: no_codes(alloc)?,
    };
    let text = print_delaf(alloc, &entry)?;
    Ok(text)
}

/// The inflection codes and the line feed.
pub(crate) fn end_of_line(alloc: Global, infl: &Texts) -> Mem<String>
    ensures { IfOk result (λ text.
        string_bytes text ≡ printed_list [] [] infl.now ++ codes "\n") }
{
    let codes = Codes {
        gram: no_text(alloc),
        sem: no_codes(alloc)?,
        infl: infl.clone()?,
    };
    let mut text = print_codes(alloc, &codes)?;
    text.push('\n')?;
    Ok(text)
}

/// A lemma without a class and codes.
pub(crate) fn lemma_alone(alloc: Global, lemma: &str) -> Mem<Stem>
    ensures { IfOk result (λ stem. stem ≡ alone lemma.now) }
{
    Ok(Stem {
        lemma: Txt::from_str(alloc, lemma)?,
        class: no_text(alloc),
        gram: no_text(alloc),
        sem: no_codes(alloc)?,
    })
}

/// The empty text.
fn no_text(alloc: Global) -> Txt
    ensures { result ≡ [] }
{
    Txt::new(String::new(alloc))
}

/// No codes.
fn no_codes(alloc: Global) -> Mem<Texts>
    ensures { IfOk result (λ texts. texts ≡ []) }
{
    let texts = Texts::new(alloc, Joined::new(alloc))?;
    Ok(texts)
}
