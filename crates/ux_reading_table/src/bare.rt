//! Texts of entries in which no sign is protected.
//!
//! Such a text is cut into its parts, and what is printed for its entry is the text itself.

ghost use Rattle.std.specs.Prelude.{◌≡◌, ◌++◌, ◌∷◌, [], IfSome};
ghost use Rattle.std.specs.List.{list_any};
ghost use Rattle.ux_sentence.specs.Written.{OPENING_BRACE, CLOSING_BRACE};
ghost use Rattle.ux_reading_table.specs.Bare.{HasParts, is_special};

/// The parts of an entry's text in which no sign is protected.
#[derive(Clone, Copy)]
pub(crate) struct BareParts<'a> {
    /// The form.
    pub form: &'a str,
    /// The lemma, or nothing where it is the form.
    pub lemma: &'a str,
    /// The codes, with their signs.
    pub codes: &'a str,
}

/// The parts of the text, where no sign is protected in form and lemma, nor has to be. Takes no
/// memory.
pub(crate) fn bare_parts(text: &str) -> Option<BareParts<'_>>
    ensures { IfSome result (HasParts text.now) }
{
    let body = body_of(text)?;
    let (form, behind) = body.split_once(',')?;
    let (lemma, codes) = behind.split_once('.')?;
    if form.is_empty() || lemma == form {
        return None;
    }
    if has_special(form) || has_special(lemma) {
        return None;
    }
    Some(BareParts { form, lemma, codes })
}

/// What stands between braces.
fn body_of(text: &str) -> Option<&str>
    ensures { IfSome result (λ body.
        text.now ≡ OPENING_BRACE ∷ (body.now ++ CLOSING_BRACE ∷ [])) }
{
    let body = text.strip_prefix('{')?.strip_suffix('}')?;
    Some(body)
}

/// Whether a sign stands in the text that form or lemma can't have bare.
fn has_special(text: &str) -> bool
    ensures { result ≡ list_any is_special text.now }
{
    text.as_bytes().iter().any(|byte| is_special_byte(*byte))
}

fn is_special_byte(byte: u8) -> bool
    ensures { result ≡ is_special byte }
{
    matches!(byte, b',' | b'.' | b'=' | b'\\' | b'/' | b'\n')
}
