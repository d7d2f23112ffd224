//! Rules that ask entries for their codes alone, so that readings with the same codes are of one kind.

ghost use Rattle.std.specs.Prelude.{◌↔◌, All, IsTrue};
ghost use Rattle.ux_elag.specs.Codes.{AllAskCodes, AskCodes, AsksCodes, AsksNoText, MaskAsksCodes, TestAsksCodes};

use crate::ready::ReadyRule;
use ux_masks::{Mask, Parts};
use ux_rules::{Sign, Step, Test};

/// Whether each of the rules asks entries for their codes alone.
pub(crate) fn all_ask_codes(rules: &[ReadyRule]) -> bool
    ensures { IsTrue result ↔ AllAskCodes rules.now }
{
    rules.iter().all(|rule| ask_codes(rule.steps()))
}

/// Whether each of the steps asks entries for their codes alone.
fn ask_codes(steps: &[Step]) -> bool
    ensures { IsTrue result ↔ AskCodes steps.now }
{
    steps.iter().all(|step| asks_codes(&step.sign))
}

/// Whether the sign asks entries for their codes alone.
fn asks_codes(sign: &Sign) -> bool
    ensures { IsTrue result ↔ AsksCodes sign.now }
{
    match sign {
        Sign::Free | Sign::If | Sign::Then => true,
        Sign::Read(test) => test_asks_codes(test),
    }
}

/// Whether the test asks entries for their codes alone.
fn test_asks_codes(test: &Test) -> bool
    ensures { IsTrue result ↔ TestAsksCodes test.now }
{
    match test {
        Test::Form(_) => false,
        Test::Lexical(mask) => mask_asks_codes(mask),
        Test::Known | Test::Unknown | Test::Any => true,
    }
}

/// Whether the mask is a lexical one that asks entries for their codes alone.
fn mask_asks_codes(mask: &Mask) -> bool
    ensures { IsTrue result ↔ MaskAsksCodes mask.now }
{
    match mask {
        Mask::Lexical(lexical) => asks_no_text(lexical.parts()),
        Mask::NotLexical(lexical) => asks_no_text(lexical.parts()),
        _ => false,
    }
}

/// Whether the parts tell neither form nor lemma.
fn asks_no_text(parts: &Parts) -> bool
    ensures { IsTrue result ↔ AsksNoText parts.now }
{
    parts.form.is_none() && parts.lemma.is_none()
}
