//! What is made once for all tokens.

ghost use Rattle.std.specs.Prelude.{◌≡◌, IfOk};
ghost use Rattle.ux_morpho.specs.Analysers.{IsAnalyser};

use std::alloc::Global;
use ux_alphabet::Alphabet;
use ux_base::Mem;
use ux_mask_table::NetMasks;
use ux_net::Net;
use ux_text_chart::NetTables;
use ux_tokens::Text;

/// A grammar, ready for one token after the other.
#[derive(Drop)]
pub struct Analyser<'a> {
    /// The grammar.
    pub net: &'a Net,
    /// The letters, each of them a word of its own.
    pub alphabet: &'a Alphabet,
    /// The masks of the net.
    pub masks: NetMasks<'a>,
    /// What charts look up of the net.
    pub tables: NetTables<'a>,
}

impl<'a> Analyser<'a> {
    /// The grammar, ready for any token. Those go fastest whose letters are tokens of the text. Takes
    /// time linear in the net and in the text.
    pub fn of(
        alloc: Global,
        net: &'a Net,
        alphabet: &'a Alphabet,
        letters: &'a Text,
    ) -> Mem<Analyser<'a>>
        ensures net { IfOk result (λ analyser. analyser.net.now ≡ net.now) }
        ensures alphabet { IfOk result (λ analyser. analyser.alphabet.now ≡ alphabet.now) }
        ensures ready { IfOk result (λ analyser. IsAnalyser analyser) }
    {
        let masks = NetMasks::of(alloc, net)?;
        let tables = NetTables::shared(alloc, net, letters, alphabet)?;
        Ok(Analyser {
            net,
            alphabet,
            masks,
            tables,
        })
    }
}
