//! The classes of lemmas by number, in the order of their first use.

ghost use Rattle.std.specs.Prelude.{◌≡◌, Some, IfOk, OnOk, slice_get};
ghost use Rattle.ux_base.specs.Distinct.{with_text};
ghost use Rattle.ux_tokens.specs.Numbers.{texts_in};
ghost use Rattle.ux_cmd_inflect.specs.Classes.{AreClassed};

use indexmap::IndexSet;
use std::alloc::Global;
use ux_base::Mem;
use ux_dela::Stem;

/// The classes of lemmas, each once, and the number of each lemma's class among them.
#[derive(Drop)]
pub(crate) struct Classes<'a> {
    /// The classes, in the order of their first use.
    pub names: IndexSet<&'a str>,
    /// The number of each lemma's class, lemma by lemma.
    pub numbers: Vec<usize>,
}

/// The classes of these lemmas.
pub(crate) fn classes_of<'a>(alloc: Global, stems: &'a [Stem]) -> Mem<Classes<'a>>
    ensures { IfOk result (λ classes.
        AreClassed stems.now (texts_in classes.names) classes.numbers.items) }
{
    let mut names: IndexSet<&str> = IndexSet::new(alloc);
    let mut numbers = Vec::new(alloc);
    for stem in stems {
        numbers.push(number_of(&mut names, stem.class.as_str())?)?;
    }
    Ok(Classes { names, numbers })
}

/// The number of the class, which is a new one where the class is new.
fn number_of<'a>(names: &mut IndexSet<&'a str>, class: &'a str) -> Mem<usize>
    ensures names { OnOk result (texts_in names.new ≡ with_text (texts_in names.old) class.now) }
    ensures number { IfOk result (λ number. slice_get (texts_in names.new) number ≡ Some class.now) }
{
    let (number, _is_new) = names.insert_full(class)?;
    Ok(number)
}
