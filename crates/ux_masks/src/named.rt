//! The names with a meaning of their own, and the texts that are refused whole.

ghost use Rattle.std.specs.Prelude.{◌↔◌, IsTrue, Contains, MatchOption};
ghost use Rattle.ux_masks.specs.Texts.{IsNamed, Names, refused_texts};

use crate::mask::Mask;

/// The mask of this name, if it is one.
pub fn named(text: &str) -> Option<Mask>
    ensures { MatchOption result (IsNamed text.now → ⊥) (Names text.now) }
{
    match text {
        "WORD" | "MOT" => Some(Mask::Word),
        "LOWER" | "MIN" => Some(Mask::Lower),
        "UPPER" | "MAJ" => Some(Mask::Upper),
        "FIRST" | "PRE" => Some(Mask::First),
        "DIC" => Some(Mask::Dic),
        "SDIC" => Some(Mask::SDic),
        "!WORD" | "!MOT" => Some(Mask::NotWord),
        "!LOWER" | "!MIN" => Some(Mask::NotLower),
        "!UPPER" | "!MAJ" => Some(Mask::NotUpper),
        "!FIRST" | "!PRE" => Some(Mask::NotFirst),
        "!DIC" => Some(Mask::NotDic),
        "!SDIC" => Some(Mask::NotSDic),
        "CDIC" => Some(Mask::CDic),
        "TDIC" => Some(Mask::TDic),
        "NB" => Some(Mask::Nb),
        "TOKEN" => Some(Mask::Token),
        _ => None,
    }
}

/// Whether the text is refused whole: the empty word, and names that have no negation.
pub fn is_refused(text: &str) -> bool
    ensures { IsTrue result ↔ Contains refused_texts text.now }
{
    matches!(text, "E" | "!E" | "!CDIC" | "!TDIC" | "!NB" | "!TOKEN")
}
