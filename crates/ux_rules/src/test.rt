//! The tests of a rule's items, each of which one reading passes or not.

ghost use Rattle.std.specs.Prelude.{◌↔◌, IsTrue};
ghost use Rattle.ux_rules.specs.Tests.{Passes};

use ux_base::Txt;
use ux_masks::Mask;
use ux_sentence::Reading;

/// What an item of a rule asks of one reading.
#[derive(Drop)]
pub enum Test {
    /// An entry of exactly this form, or this text without an entry.
    Form(Txt),
    /// An entry that meets the lexical mask, or doesn't meet what it negates.
    Lexical(Mask),
    /// Any entry.
    Known,
    /// Any text without an entry.
    Unknown,
    /// Any reading.
    Any,
}

impl Test {
    /// Whether the reading passes the test. Takes no memory.
    pub fn passes(&self, reading: &Reading) -> bool
        ensures { IsTrue result ↔ Passes self.now reading.now }
    {
        match self {
            Test::Form(text) => is_form(text, reading),
            Test::Lexical(mask) => meets(mask, reading),
            Test::Known => is_known(reading),
            Test::Unknown => !is_known(reading),
            Test::Any => true,
        }
    }
}

/// Whether the reading is an entry of this form, or this text.
fn is_form(text: &Txt, reading: &Reading) -> bool
    ensures { IsTrue result ↔ Passes (Test.Form text.now) reading.now }
{
    match reading {
        Reading::Word(entry) => entry.form == *text,
        Reading::Raw(raw) => raw == text,
    }
}

/// Whether the reading is an entry that meets the mask.
fn meets(mask: &Mask, reading: &Reading) -> bool
    ensures { IsTrue result ↔ Passes (Test.Lexical mask.now) reading.now }
{
    match reading {
        Reading::Word(entry) => mask.meets(entry),
        Reading::Raw(_) => false,
    }
}

/// Whether the reading is an entry.
fn is_known(reading: &Reading) -> bool
    ensures { IsTrue result ↔ Passes Test.Known reading.now }
{
    match reading {
        Reading::Word(_) => true,
        Reading::Raw(_) => false,
    }
}
