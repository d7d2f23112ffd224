//! What is asked of a content: entries in the order of their forms.

ghost use Rattle.std.specs.Prelude.{◌≡◌, ◌↔◌, All, IsTrue};
ghost use Rattle.std.specs.Cmp.Lexicographic.{slice_cmp};
ghost use Rattle.std.specs.Ordering.{nat_cmp};
ghost use Rattle.std.specs.Str.{chars};
ghost use Rattle.ux_dict.specs.Content.{IsDictionary};
ghost use Rattle.ux_image.specs.Contents.{HasTexts, IsContent};
ghost use Rattle.ux_image.specs.Grouping.{MayFollow};

use std::cmp::Ordering;
use ux_dict::Stored;

/// Whether the entries stand in the order of their forms, by code points, and no form is empty.
pub fn is_content(entries: &[Stored]) -> bool
    ensures { IsTrue result ↔ IsContent entries.now }
{
    let mut last = "";
    for entry in entries {
        let form = entry.form();
        if !may_follow(last, form) {
            return false;
        }
        last = form;
    }
    true
}

/// Shows that the entries of a dictionary are such. Their forms are texts, whose bytes stand in the
/// order of their characters.
pub fn dictionary_is_content(entries: &[Stored])
    requires { IsDictionary entries.now }
    ensures content { IsContent entries.now }
    ensures texts { All HasTexts entries.now }
{
    are_texts(entries)
}

/// Forms and lemmas are texts.
fn are_texts(entries: &[Stored])
    ensures { All HasTexts entries.now }
{
    for entry in entries {
        let _form = entry.form();
        let _lemma = entry.lemma();
    }
}

/// Whether the form isn't empty, and is the last one or comes after it.
fn may_follow(last: &str, form: &str) -> bool
    ensures { IsTrue result ↔ MayFollow last.now form.now }
{
    !form.is_empty() && (form == last || compare(last, form) == Ordering::Less)
}

/// The order of two forms, by code points.
fn compare(a: &str, b: &str) -> Ordering
    ensures { result ≡ slice_cmp nat_cmp (chars a.now) (chars b.now) }
{
    a.chars().cmp(b.chars())
}
