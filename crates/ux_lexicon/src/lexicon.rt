//! What a dictionary answers about forms.
//!
//! A dictionary has a content, the list of its entries, and every answer is about that list. Texts
//! are given as they stand: an upper-case letter of the text is fitted by the lower-case one of the
//! form, by the alphabet, and a lower-case letter of the text by itself alone.

ghost use Rattle.std.specs.Prelude.{◌≡◌, ◌↔◌, ◌<◌, [], IsTrue, IfOk, MatchOption, All, length};
ghost use Rattle.ux_alphabet.specs.Letters.{Letters};
ghost use Rattle.ux_dela.specs.Sound.{IsSound};
ghost use Rattle.ux_dict.specs.Content.{IsDictionary};
ghost use Rattle.ux_dict.specs.Forms.{IsFitting, MayBegin, count_of, longest_of};
ghost use Rattle.ux_lexicon.specs.Reached.{IsReachedBy};

use crate::reached::Reached;
use std::alloc::Global;
use ux_alphabet::Alphabet;
use ux_base::Mem;
use ux_dela::Entry;

/// A dictionary, seen as its content: entries that differ, in order of form.
pub trait Lexicon {
    ghost use Rattle.std.specs.Prelude.{List};
    ghost use Rattle.ux_dela.specs.declared.entry.Entry.{Entry};

    ghost content: { Self → List Entry };

    /// Where the empty text leads. `Reached` goes on from there by the text itself.
    fn begin(&self, alloc: Global) -> Mem<Reached<'_>>
        ensures { IfOk result (λ reached. (alphabet : Letters) →
            IsReachedBy alphabet (content self.now) [] reached) };

    /// The entries whose form fits the text character by character, in the order of the content.
    fn fitting(&self, alloc: Global, text: &str, alphabet: &Alphabet) -> Mem<Vec<Entry>>
        ensures found { IfOk result (λ found.
            IsFitting alphabet.now text.now (content self.now) found.items) }
        ensures sound { IfOk result (λ found. All IsSound found.items) };

    /// Whether some form begins with characters that fit the text, one by one. Where none does, no
    /// longer text has a fitting form.
    fn may_begin(&self, alloc: Global, text: &str, alphabet: &Alphabet) -> Mem<bool>
        ensures { IfOk result (λ may.
            IsTrue may ↔ MayBegin alphabet.now text.now (content self.now)) };

    /// The number of entries of exactly this form, if there is one.
    fn exact(&self, form: &str) -> Option<usize>
        ensures { MatchOption result (count_of form.now (content self.now) ≡ 0)
            (λ count. (count ≡ count_of form.now (content self.now)) × (0 < count)) };

    /// The length in characters of the longest form, 0 where there is none.
    fn longest(&self) -> usize
        ensures { result ≡ longest_of (content self.now) };

    /// The number of entries.
    fn count(&self) -> usize
        ensures number { result ≡ length (content self.now) }
        ensures kept { IsDictionary (content self.now) };
}
