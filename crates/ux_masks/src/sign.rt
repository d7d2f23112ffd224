//! The signs that stand between the names of a lexical mask, and in which order they may come.

ghost use Rattle.std.specs.Prelude.{◌≡◌};
ghost use Rattle.ux_masks.specs.Pieces.{may_follow, needs_name, sign_at};

/// A sign that stands before a name of a lexical mask. Before the first name stands none.
#[derive(Clone, Copy)]
pub enum Sign {
    /// `,`, before a lemma.
    Comma,
    /// `.`, before the code of a lemma.
    Dot,
    /// `+`, before a code that is needed.
    Plus,
    /// `~`, before a code that is forbidden.
    Tilde,
    /// `:`, before an inflection alternative.
    Colon,
}

impl Sign {
    /// The sign with which the text begins.
    pub fn at(text: &str) -> Option<Sign>
        ensures { result ≡ sign_at text.now }
    {
        match text.as_bytes() {
            [b',', ..] => Some(Sign::Comma),
            [b'.', ..] => Some(Sign::Dot),
            [b'+', ..] => Some(Sign::Plus),
            [b'~', ..] => Some(Sign::Tilde),
            [b':', ..] => Some(Sign::Colon),
            _ => None,
        }
    }

    /// Whether the sign may come next, where this sign came last, or none yet.
    pub fn may_follow(self, last: Option<Sign>) -> bool
        ensures { result ≡ may_follow last self }
    {
        match (last, self) {
            (None, _) | (Some(_), Sign::Colon) => true,
            (Some(Sign::Colon), _) => false,
            (Some(_), Sign::Plus | Sign::Tilde) => true,
            (Some(Sign::Comma), Sign::Dot) => true,
            (Some(_), Sign::Comma | Sign::Dot) => false,
        }
    }

    /// Whether the name behind the sign may not be empty.
    pub fn needs_name(self) -> bool
        ensures { result ≡ needs_name self }
    {
        match self {
            Sign::Comma | Sign::Dot => false,
            Sign::Plus | Sign::Tilde | Sign::Colon => true,
        }
    }
}
