//! A finder in memory: each step finds the first token of a text.

use std::alloc::Global;
use ux_base::{Mem, Txt};
use ux_cascade::Finder;
use ux_outputs::Hit;
use ux_tokens::Text;

/// For each step what it puts in the place of the first token.
#[derive(Drop)]
pub struct Fronts {
    /// The texts.
    pub texts: Vec<Txt>,
}

impl Finder for Fronts {
    ghost use Rattle.std.specs.Prelude.{◌≡◌, length};
    ghost use Rattle.ux_tests_cascade.specs.Fronts.{FindsFront, one_front};

    ghost steps = { λ fronts. length fronts.texts.items };

    ghost finds = { λ fronts. FindsFront fronts.texts.items };

    fn find(&self, alloc: Global, step: usize, text: &Text) -> Mem<Vec<Hit>> {
        let mut hits = Vec::new(alloc);
        if text.len() > 0 {
            let text = Txt::from_str(alloc, self.texts[step].as_str())?;
            hits.push(Hit {
                first: 0,
                last: 0,
                text,
            })?;
        }
        Ok(hits)
    }

    ghost one_list = { λ fronts. one_front fronts.texts.items };
}
