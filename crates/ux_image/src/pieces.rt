//! Texts that are cut at their spaces and hyphens.

ghost use Rattle.std.specs.Prelude.{◌≡◌, ◌<◌, ◌+◌, ◌∷◌, [], true, All, IsTrue, ◌↔◌, MatchOption, length, slice_index, take, drop};
ghost use Rattle.ux_image.specs.Cutting.{HasNoSeparator, IsCutOf, IsSeparatorAt};
ghost use Rattle.ux_image.specs.Pieces.{is_separator, separators};

/// A text that is cut at its first separator.
#[derive(Clone, Copy)]
pub(crate) struct Cut<'a> {
    /// What stands before it.
    pub piece: &'a str,
    /// The separator.
    pub separator: &'a str,
    /// What stands behind it.
    pub behind: &'a str,
}

/// The text, cut at its first separator. Takes a step a byte of the piece.
pub(crate) fn split_piece(text: &str) -> Option<Cut<'_>>
    ensures { MatchOption result (HasNoSeparator text.now) (IsCutOf text.now) }
{
    let place = first_separator(text.as_bytes())?;
    Some(Cut {
        piece: before(text, place),
        separator: sign_at(text, place),
        behind: behind(text, place),
    })
}

/// Whether two texts have the same separators in the same order.
pub(crate) fn have_same_separators(form: &str, lemma: &str) -> bool
    ensures { IsTrue result ↔ (separators form.now ≡ separators lemma.now) }
{
    let mut form_rest = form;
    let mut lemma_rest = lemma;
    while let Some(in_form) = split_piece(form_rest) {
        let Some(in_lemma) = split_piece(lemma_rest) else {
            return false;
        };
        if in_form.separator != in_lemma.separator {
            return false;
        }
        form_rest = in_form.behind;
        lemma_rest = in_lemma.behind;
    }
    split_piece(lemma_rest).is_none()
}

/// Two texts with the same separators, each cut at its first one.
pub(crate) fn split_both<'a>(form: &'a str, lemma: &'a str) -> Option<(Cut<'a>, Cut<'a>)>
    requires { separators form.now ≡ separators lemma.now }
    ensures { MatchOption result (HasNoSeparator form.now × HasNoSeparator lemma.now)
        (λ (in_form, in_lemma). IsCutOf form.now in_form × IsCutOf lemma.now in_lemma) }
{
    let in_form = split_piece(form)?;
    let in_lemma = split_piece(lemma)?;
    Some((in_form, in_lemma))
}

/// How many separators the text has.
pub(crate) fn count_separators(text: &str) -> usize
    ensures { result ≡ length (separators text.now) }
{
    text.as_bytes()
        .iter()
        .filter(|byte| is_separator(**byte))
        .count()
}

/// The place of the first separator.
fn first_separator(text: &[u8]) -> Option<usize>
    ensures { MatchOption result (HasNoSeparator text.now) (IsSeparatorAt text.now) }
{
    for (place, byte) in text.iter().enumerate() {
        if is_separator(*byte) {
            return Some(place);
        }
    }
    None
}

fn is_separator(byte: u8) -> bool
    ensures { result ≡ is_separator byte }
{
    byte == b' ' || byte == b'-'
}

/// What stands before an ASCII character.
fn before(text: &str, place: usize) -> &str
    requires inside { place < length text.now }
    requires ascii { slice_index text.now place < 128 }
    ensures { result.now ≡ take place text.now }
{
    &text[..place]
}

/// The ASCII character at a place.
fn sign_at(text: &str, place: usize) -> &str
    requires inside { place < length text.now }
    requires ascii { slice_index text.now place < 128 }
    ensures { result.now ≡ slice_index text.now place ∷ [] }
{
    &text[place..place + 1]
}

/// What stands behind an ASCII character.
fn behind(text: &str, place: usize) -> &str
    requires inside { place < length text.now }
    requires ascii { slice_index text.now place < 128 }
    ensures { result.now ≡ drop (place + 1) text.now }
{
    &text[place + 1..]
}
