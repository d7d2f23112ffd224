//! From which parts of a tag's body on a text goes to the body's end.
//!
//! A body is read from its end, byte by byte, so that one look at a text tells of each of its places
//! whether the rest from there on is a body.

ghost use Rattle.std.specs.Prelude.{◌≡◌, ◌↔◌, ◌∷◌, [], List, ℕ, IsTrue, true};
ghost use Rattle.ux_dela.specs.Reading.{characters};
ghost use Rattle.ux_dela.specs.Written.{Written, bare, protected};
ghost use Rattle.ux_tokens.specs.Regions.{AreRest};
ghost use Rattle.ux_tokens.specs.Tails.{AreTails};
ghost use Rattle.ux_tokens.specs.Tokens.{OPENING_BRACE};

/// From which parts on what is left of a body goes to its end.
#[derive(Clone, Copy)]
pub struct Tails {
    /// From the form's begin.
    pub before_form: bool,
    /// From within the form.
    pub form: bool,
    /// From the lemma.
    pub lemma: bool,
    /// From the begin of a grammatical or semantic code.
    pub before_code: bool,
    /// From within such a code.
    pub code: bool,
    /// From the begin of an inflection code.
    pub before_feature: bool,
    /// From within such a code.
    pub feature: bool,
}

impl Tails {
    /// Those of the body's end.
    fn of_end() -> Tails
        ensures { AreTails result [] }
    {
        Tails {
            before_form: false,
            form: false,
            lemma: false,
            before_code: false,
            code: true,
            before_feature: false,
            feature: true,
        }
    }

    /// Those with a character of the part's own in front.
    fn with_own(self) -> Tails
        ensures { (b : ℕ) (w : List Written) → AreTails self w → AreTails result (protected b ∷ w) }
    {
        Tails {
            before_form: self.form,
            before_code: self.code,
            before_feature: self.feature,
            ..self
        }
    }

    /// Those with a bare character in front.
    fn with_bare(self, byte: u8) -> Tails
        ensures { (w : List Written) → AreTails self w → AreTails result (bare byte ∷ w) }
    {
        let own = self.with_own();
        match byte {
            b',' => Tails {
                before_form: false,
                form: self.lemma,
                ..own
            },
            b'.' => Tails {
                lemma: self.before_code,
                ..own
            },
            b'=' => Tails {
                before_form: false,
                form: false,
                lemma: false,
                ..own
            },
            b'+' => Tails {
                before_code: false,
                code: self.before_code,
                ..own
            },
            b':' => Tails {
                before_code: false,
                code: self.before_feature,
                before_feature: false,
                feature: self.before_feature,
                ..own
            },
            b'/' => Tails {
                before_form: false,
                before_code: false,
                code: false,
                before_feature: false,
                feature: false,
                ..own
            },
            _ => own,
        }
    }
}

/// From which parts on what is left of a text goes to a body's end.
#[derive(Clone, Copy)]
pub struct Rest {
    /// As it stands.
    pub bare: Tails,
    /// Where its first byte is protected.
    pub protected: Tails,
}

impl Rest {
    /// Those of a body's end.
    pub(crate) fn of_end() -> Rest
        ensures { AreRest result [] }
    {
        let bare = Tails::of_end();
        Rest {
            bare,
            protected: bare.with_bare(b'\\'),
        }
    }

    /// Those with a byte in front.
    pub(crate) fn with(self, byte: u8) -> Rest
        ensures { (text : List ℕ) → AreRest self text → AreRest result (byte ∷ text) }
    {
        Rest {
            bare: self.bare_with(byte),
            protected: self.bare.with_own(),
        }
    }

    /// Whether the byte is a brace, and the rest is all of a body and nothing else.
    pub(crate) fn begins_tag(self, byte: u8) -> bool
        ensures { IsTrue result ↔ ((byte ≡ OPENING_BRACE) × (self.bare.before_form ≡ true)) }
    {
        byte == b'{' && self.bare.before_form
    }

    /// As it stands, with a byte in front.
    fn bare_with(self, byte: u8) -> Tails
        ensures { (text : List ℕ) → AreRest self text →
            AreTails result (characters (byte ∷ text)) }
    {
        if byte == b'\\' {
            return self.protected;
        }
        self.bare.with_bare(byte)
    }
}
