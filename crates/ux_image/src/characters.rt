//! The characters of a text, one after another.

ghost use Rattle.std.specs.Prelude.{◌≡◌, ◌≤◌, ◌∷◌, [], MatchOption, length};
ghost use Rattle.std.specs.Str.{chars};
ghost use Rattle.ux_image.specs.Codes.{behind_chars, front_chars};

/// How many characters the text has.
pub(crate) fn count_chars(text: &str) -> usize
    ensures { result ≡ length (chars text.now) }
{
    text.chars().count()
}

/// The first character of a text, and what stands behind it.
pub(crate) fn split_first_char(text: &str) -> Option<(char, &str)>
    ensures { MatchOption result (chars text.now ≡ [])
        (λ (c, rest). chars text.now ≡ c ∷ chars rest.now) }
{
    let mut chars = text.chars();
    match chars.next() {
        Some(c) => Some((c, chars.as_str())),
        None => None,
    }
}

/// What stands behind so many characters.
fn behind_chars(text: &str, count: usize) -> &str
    requires { count ≤ length (chars text.now) }
    ensures { chars result.now ≡ behind_chars count text.now }
{
    let mut rest = text;
    for done in 0..count {
        rest = behind_first_char(rest);
    }
    rest
}

/// What stands behind the first character, if there is one.
fn behind_first_char(text: &str) -> &str
    ensures { chars result.now ≡ behind_chars 1 text.now }
{
    match split_first_char(text) {
        Some((_, rest)) => rest,
        None => text,
    }
}

/// The first characters of a text, of which it has so many.
pub(crate) fn front_chars(text: &str, count: usize) -> &str
    requires { count ≤ length (chars text.now) }
    ensures { result.now ≡ front_chars count text.now }
{
    let rest = behind_chars(text, count);
    &text[..text.len() - rest.len()]
}
