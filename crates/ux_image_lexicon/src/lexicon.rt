//! A dictionary that stays an automaton: that of its image, or one that was made of a file of forms.
//!
//! `read_image` reads one, and `of_text` makes one; each look-up makes the entries that it finds.

ghost use Rattle.std.specs.Prelude.{◌≡◌, ◌⊎◌, ◌↔◌, ◌<◌, ◌^◌, ℕ, List, [], All, IfErr, IfOk, IsTrue, MatchOption, length};
ghost use Rattle.ux_alphabet.specs.Letters.{Letters};
ghost use Rattle.ux_dawg.specs.Paths.{MakeAutomaton};
ghost use Rattle.ux_dela.specs.Sound.{IsSound};
ghost use Rattle.ux_dict.specs.Content.{IsDictionary};
ghost use Rattle.ux_dict.specs.Forms.{IsFitting, MayBegin, count_of, longest_of};
ghost use Rattle.ux_image_content.specs.Files.{IsImageContent, IsImageFile, RefusesImage};
ghost use Rattle.ux_image_content.specs.Contents.{IsContentOf};
ghost use Rattle.ux_image_reader.specs.declared.error.ImageError.{ImageError as ErrorData};
ghost use Rattle.ux_image_reader.specs.declared.error.ImageError.TheVariants.{NoMemory};
ghost use Rattle.ux_image_lexicon.specs.Places.{IsReachedInImage};
ghost use Rattle.ux_image_lexicon.specs.Told.{content_in};

use crate::coded::Coded;
use crate::counts::{Counts, count};
use crate::entries::codes_at;
use crate::finding::number_of;
use crate::lists::read_lists;
use crate::reached::ImageReached;
use std::alloc::Global;
use std::marker::Model;
use ux_alphabet::Alphabet;
use ux_base::Mem;
use ux_dela::Entry;
use ux_image_content::read_image as read_whole;
use ux_image_lists::Image;
use ux_image_look_ups::{begin, longest};
use ux_image_reader::ImageError;

/// A dictionary that stays an automaton, seen as its content: the entries that the automaton tells with
/// its lists of codes, each once, in ascending order of their forms and in the order of each form's codes.
#[derive(Drop)]
pub struct ImageLexicon {
    pub(crate) coded: Coded,
    /// The length in characters of the longest form.
    pub(crate) longest: usize,
    /// How many entries there are.
    pub(crate) counts: Counts,
}

impl Model for ImageLexicon {
    ghost use Rattle.std.specs.Prelude.{List};
    ghost use Rattle.ux_dela.specs.declared.entry.Entry.{Entry};
    ghost use Rattle.ux_image_lexicon.specs.Told.{content_in};

    ghost Value = { List Entry };

    ghost view = { λ lexicon. content_in lexicon.coded };

    ghost use Rattle.std.specs.Prelude.{◌≡◌};
    ghost use Rattle.ux_dict.specs.Forms.{longest_of};
    ghost use Rattle.ux_image_lexicon.specs.Counting.{AreCounts};

    ghost invariant = { λ lexicon. (lexicon.longest ≡ longest_of (content_in lexicon.coded))
        × AreCounts lexicon.coded lexicon.counts };
}

/// The dictionary of an image, or the first fault of the file. The time is linear in the file where
/// the codes of each list differ in more than the lemma. Else it is linear also in the beginnings of
/// forms that lead to other lists, with the letters that come next, and in the letters of the forms of
/// these lists, each counted for each of its codes. The memory is linear in the file, and in the
/// letters of those forms of which two codes make one entry. An image that `ux_image` makes has no such
/// form.
pub fn read_image(alloc: Global, bytes: &[u8]) -> Result<ImageLexicon, ImageError>
    requires { length bytes.now < 2 ^ 32 }
    ensures ok { IfOk result (IsImageContent bytes.now) }
    ensures kept { IfOk result IsDictionary }
    ensures exact { IfOk result (λ _. (error : ErrorData) → RefusesImage bytes.now error → ⊥) }
    ensures err { IfErr result (λ error. (error ≡ NoMemory) ⊎ RefusesImage bytes.now error) }
{
    let image = read_whole(alloc, bytes)?;
    Ok(ImageLexicon::of(alloc, image)?)
}

impl ImageLexicon {
    /// The dictionary of an image.
    fn of(alloc: Global, image: Image) -> Mem<ImageLexicon>
        requires file { (bytes : List ℕ) × IsImageFile bytes image }
        requires automaton { MakeAutomaton image.states }
        ensures content { IfOk result (IsContentOf image) }
        ensures kept { IfOk result IsDictionary }
    {
        let lists = read_lists(alloc, &image.lists)?;
        ImageLexicon::of_coded(alloc, Coded::new(image.states, lists))
    }

    /// The dictionary of an automaton and its lists.
    fn of_coded(alloc: Global, coded: Coded) -> Mem<ImageLexicon>
        ensures content { IfOk result (λ lexicon. lexicon ≡ content_in coded) }
        ensures kept { IfOk result IsDictionary }
    {
        let longest = longest(alloc, coded.states())?;
        let counts = count(alloc, &coded)?;
        Ok(ImageLexicon {
            coded,
            longest,
            counts,
        })
    }

    /// Where the empty text leads.
    pub fn begin(&self, alloc: Global) -> Mem<ImageReached<'_>>
        ensures { IfOk result (λ reached. (alphabet : Letters) →
            IsReachedInImage alphabet self.now [] reached) }
    {
        Ok(ImageReached {
            coded: &self.coded,
            states: begin(alloc, self.coded.states())?,
        })
    }

    /// Where the text leads.
    fn reached(&self, alloc: Global, text: &str, alphabet: &Alphabet) -> Mem<ImageReached<'_>>
        ensures { IfOk result (λ reached.
            IsReachedInImage alphabet.now self.now text.now reached) }
    {
        let start = self.begin(alloc)?;
        start.go_on(alloc, text, alphabet)
    }

    /// The entries whose form fits the text character by character, in the order of the content.
    /// Halves the edges of each state on the way, or takes a look at each where several letters fit
    /// the character, once for each state to which the text leads, and makes the entries that are
    /// found.
    pub fn fitting(&self, alloc: Global, text: &str, alphabet: &Alphabet) -> Mem<Vec<Entry>>
        ensures found { IfOk result (λ found.
            IsFitting alphabet.now text.now self.now found.items) }
        ensures sound { IfOk result (λ found. All IsSound found.items) }
    {
        self.reached(alloc, text, alphabet)?
            .ending(alloc, text, alphabet)
    }

    /// Whether some form begins with characters that fit the text, one by one. Where none does, no
    /// longer text has a fitting form.
    pub fn may_begin(&self, alloc: Global, text: &str, alphabet: &Alphabet) -> Mem<bool>
        ensures { IfOk result (λ may. IsTrue may ↔ MayBegin alphabet.now text.now self.now) }
    {
        let reached = self.reached(alloc, text, alphabet)?;
        Ok(reached.may_go_on())
    }

    /// The number of entries of exactly this form, if there is one. Halves the edges of each state on
    /// the way, and takes no memory.
    pub fn exact(&self, form: &str) -> Option<usize>
        ensures { MatchOption result (count_of form.now self.now ≡ 0)
            (λ count. (count ≡ count_of form.now self.now) × (0 < count)) }
    {
        let number = number_of(self.coded.states(), form)?;
        let codes = codes_at(self.coded.lists(), number);
        Some(self.counts.of(form, codes.len()))
    }

    /// The length in characters of the longest form, 0 where there is none. Is kept.
    pub fn longest(&self) -> usize
        ensures longest { result ≡ longest_of self.now }
        ensures kept { IsDictionary self.now }
    {
        // The states are those of a dictionary, which the second clause rests on.
        let _states = self.coded.states();
        self.longest
    }

    /// The number of entries. Is kept.
    pub fn count(&self) -> usize
        ensures number { result ≡ length self.now }
        ensures kept { IsDictionary self.now }
    {
        // The states are those of a dictionary, which the second clause rests on.
        let _states = self.coded.states();
        self.counts.total()
    }
}
