//! What the contracts decide: a code the entry that is made with it, and a content its image.

ghost use Rattle.std.specs.Prelude.{◌≡◌};
ghost use Rattle.ux_dela.specs.Sound.{IsSound};
ghost use Rattle.ux_image.specs.Codes.{Rebuilds, entry_code};
ghost use Rattle.ux_image.specs.Images.{IsImage, Tells};

use crate::code::Code;
use ux_dela::Entry;

/// The code of a sound entry makes the entry of its form.
pub fn code_makes_entry(entry: &Entry)
    requires { IsSound entry.now }
    ensures { Rebuilds entry.now.form (entry_code entry.now) entry.now }
{
    // The lemma is text, which the law rests on.
    let _lemma = entry.lemma.as_str();
}

/// A code makes one entry of a form.
pub fn code_decides_entry(form: &str, code: &Code, first: &Entry, second: &Entry)
    requires first { Rebuilds form.now code.now first.now }
    requires second { Rebuilds form.now code.now second.now }
    ensures { first.now ≡ second.now }
{}

/// A content has one image.
pub fn content_decides_image(content: &[Entry], first: &[u8], second: &[u8])
    requires first { IsImage content.now first.now }
    requires second { IsImage content.now second.now }
    ensures { first.now ≡ second.now }
{}

/// An image tells its content: the automaton leads with each form to the list of its codes.
pub fn image_tells_content(content: &[Entry], bytes: &[u8])
    requires { IsImage content.now bytes.now }
    ensures { Tells content.now bytes.now }
{}
