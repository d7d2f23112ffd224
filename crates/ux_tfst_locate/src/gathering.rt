//! The links of some sentences, each with the number of its sentence.

ghost use Rattle.std.specs.Prelude.{◌≡◌, ◌++◌, IfOk, OnOk, flat_map};
ghost use Rattle.ux_tfst_locate.specs.Sought.{links_of};

use crate::lattice::SentenceLink;
use std::alloc::Global;
use ux_base::Mem;
use ux_reading_table::NumberedSentence;

/// All links of the sentences, in their order.
pub(crate) fn gathered(alloc: Global, sentences: &[NumberedSentence]) -> Mem<Vec<SentenceLink>>
    ensures { IfOk result (λ links. links.items ≡ flat_map links_of sentences.now) }
{
    let mut links = Vec::new(alloc);
    for sentence in sentences {
        add_links(&mut links, sentence)?;
    }
    Ok(links)
}

/// Adds the links of the sentence.
fn add_links(links: &mut Vec<SentenceLink>, sentence: &NumberedSentence) -> Mem<()>
    ensures { OnOk result (links.new.items ≡ links.old.items ++ links_of sentence.now) }
{
    let last = sentence.states.saturating_sub(1);
    for link in &sentence.links {
        links.push(SentenceLink {
            sentence: sentence.number,
            from: link.from,
            to: link.to,
            reading: link.reading,
            last,
        })?;
    }
    Ok(())
}
