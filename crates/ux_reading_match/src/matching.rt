//! Which readings a label matches.

ghost use Rattle.std.specs.Prelude.{◌≡◌, ◌↔◌, IsTrue};
ghost use Rattle.ux_reading_match.specs.Matching.{IsShown, Matches, text_of as text_of_reading};
ghost use Rattle.ux_sentence.specs.Written.{reading_text};

use crate::accepting::accepts;
use crate::spelling::fits_text;
use ux_alphabet::Alphabet;
use ux_net::Label;
use ux_sentence::Reading;

/// Whether the label matches the reading, which is printed so. A label that takes nothing matches
/// none. Takes time in the label and the reading, and no memory.
pub fn matches(label: &Label, reading: &Reading, printed: &str, alphabet: &Alphabet) -> bool
    requires printed { printed.now ≡ reading_text reading.now }
    ensures { IsTrue result ↔ Matches alphabet.now label.now reading.now }
{
    match label {
        Label::CaseFolded(text) => fits_text(alphabet, text.as_str(), text_of(reading)),
        Label::CaseExact(text) => text_of(reading) == text.as_str(),
        Label::Mask(mask) => accepts(mask, reading, alphabet),
        Label::Brace(text) => is_shown(text.as_str(), reading, printed),
        Label::Empty
        | Label::Space
        | Label::NoSpace
        | Label::Begin(_)
        | Label::End(_)
        | Label::Positive
        | Label::Negative
        | Label::ContextEnd
        | Label::Cut
        | Label::Call(_) => false,
    }
}

/// The form of an entry, or the text that has none.
fn text_of(reading: &Reading) -> &str
    ensures { result.now ≡ text_of_reading reading.now }
{
    match reading {
        Reading::Word(entry) => entry.form.as_str(),
        Reading::Raw(text) => text.as_str(),
    }
}

/// Whether the reading is an entry, which is printed as this text.
fn is_shown(text: &str, reading: &Reading, printed: &str) -> bool
    requires printed { printed.now ≡ reading_text reading.now }
    ensures { IsTrue result ↔ IsShown text.now reading.now }
{
    match reading {
        Reading::Word(_) => text == printed,
        Reading::Raw(_) => false,
    }
}
