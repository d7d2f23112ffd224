//! The hits of a text, rewritten.

ghost use Rattle.std.specs.Prelude.{◌≡◌, IfOk};
ghost use Rattle.ux_cascade.specs.Rewriting.{CanRewrite, rewritten};

use crate::between::between;
use std::alloc::Global;
use ux_base::{Mem, Txt};
use ux_outputs::Hit;
use ux_tokens::Text;

/// A text in which the texts of hits stand for their tokens.
#[derive(Debug, Drop)]
pub struct Rewritten {
    /// The text.
    pub text: Txt,
    /// How many hits stand for their tokens.
    pub spans: u32,
}

/// The text in which the text of each hit stands for its tokens. Of the hits with one first token the
/// first counts.
///
/// Takes a step for each hit, and for each byte of the text that comes out, which is the only memory
/// taken.
pub fn rewrite(alloc: Global, text: &Text, hits: &[Hit]) -> Mem<Rewritten>
    requires { CanRewrite text.now hits.now }
    ensures { IfOk result (λ made. made ≡ rewritten text.now hits.now) }
{
    let len = text.len();
    let mut written = String::new(alloc);
    let mut place = 0;
    let mut spans = 0;
    for hit in hits {
        let first = hit.first as usize;
        // A hit with this first token has counted.
        if first < place {
            continue;
        }
        written.push_str(between(text, place, first))?;
        written.push_str(hit.text.as_str())?;
        place = hit.last as usize + 1;
        spans += 1;
    }
    written.push_str(between(text, place, len))?;
    Ok(Rewritten {
        text: Txt::new(written),
        spans,
    })
}
