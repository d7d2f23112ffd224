//! What a rule leaves of a sentence.

ghost use Rattle.std.specs.Prelude.{◌≡◌, ◌↔◌, List, All, IfOk, IsTrue};
ghost use Rattle.ux_sentence.specs.declared.sentence.Reading.{Reading};
ghost use Rattle.ux_sentence.specs.Paths.{IsReadAs, IsWellFormed};
ghost use Rattle.ux_sentence.specs.Valid.{HasSpellable};
ghost use Rattle.ux_elag.specs.Left.{IsLeft};

use crate::naming::named_sentence;
use crate::numbering::{Numbered, number};
use crate::ready::ReadyRule;
use std::alloc::Global;
use ux_base::Mem;
use ux_sentence::{Sentence, passage};

/// What the rule leaves of the sentence: exactly the reading lists that satisfy it, each by one
/// path. Each different reading is tried by each test of the rule.
pub fn apply(alloc: Global, sentence: &Sentence, rule: &mut ReadyRule) -> Mem<Sentence>
    requires formed { IsWellFormed sentence.now }
    requires spellable { All HasSpellable sentence.now.links }
    ensures left { IfOk result (IsLeft rule.old sentence.now) }
    ensures spellable { IfOk result (λ left. All HasSpellable left.links) }
    ensures same { rule.new ≡ rule.old }
{
    let Numbered {
        texts,
        readings,
        sentence,
    } = number(alloc, sentence)?;
    let left = rule.leave(alloc, texts.as_slice(), readings.as_slice(), &sentence)?;
    named_sentence(alloc, readings.as_slice(), &left)
}

/// Whether a path leads from the first state to the last. Takes time in the links, those times a
/// logarithm of their number.
pub fn has_path(alloc: Global, sentence: &Sentence) -> Mem<bool>
    requires { IsWellFormed sentence.now }
    ensures { IfOk result (λ has.
        IsTrue has ↔ ((readings : List Reading) × IsReadAs sentence.now readings)) }
{
    passage::has_path(alloc, sentence)
}
