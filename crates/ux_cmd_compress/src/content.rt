//! The content of a dictionary: its entries, each once, in the order of their forms. An image can be
//! made of it, since forms are texts, whose bytes stand in the order of their characters.

ghost use Rattle.std.specs.Prelude.{◌≡◌, ◌⊎◌, All, IfErr, IfOk};
ghost use Rattle.ux_dela.specs.Files.{Refuses};
ghost use Rattle.ux_dela.specs.Sound.{IsSound};
ghost use Rattle.ux_dela.specs.declared.error.DelaError.TheVariants as dela;
ghost use Rattle.ux_dict.specs.Content.{IsContent};
ghost use Rattle.ux_dict.specs.FileContent.{IsFileContent};
ghost use Rattle.ux_image.specs.Contents.{IsContent as IsImageable};

use std::alloc::Global;
use ux_base::Mem;
use ux_dela::{DelaError, Entry};
use ux_dict::Stored;
use ux_image::dictionary_is_content;

/// The content of a file of forms, or why its first bad line is refused. Takes a step a byte, and
/// sorts the entries.
pub(crate) fn content_in(alloc: Global, text: &str) -> Result<Vec<Stored>, DelaError>
    ensures ok { IfOk result (λ content. IsFileContent text.now content.items) }
    ensures ordered { IfOk result (λ content. IsImageable content.items) }
    ensures refused { IfErr result (λ error. (error ≡ dela.NoMemory) ⊎ Refuses text.now error) }
{
    let content = ux_dict::content_in(alloc, text)?;
    dictionary_is_content(&content);
    Ok(content)
}

/// The entries that differ, in the order of their forms.
pub(crate) fn content_of(alloc: Global, entries: Vec<Entry>) -> Mem<Vec<Stored>>
    requires { All IsSound entries.items }
    ensures content { IfOk result (λ content. IsContent entries.items content.items) }
    ensures ordered { IfOk result (λ content. IsImageable content.items) }
{
    let content = ux_dict::content_of(alloc, entries)?;
    dictionary_is_content(&content);
    Ok(content)
}
