//! What the charts of a net look up, made once for any number of texts.

ghost use Rattle.std.specs.Prelude.{◌≡◌, ℕ, List, IfOk, IfSome, None, Some, slice_get};
ghost use Rattle.ux_alphabet.specs.Letters.{Letters};
ghost use Rattle.ux_lexical_tables.specs.Tables.{Tables};
ghost use Rattle.ux_net.specs.declared.net_graph.NetGraph.{NetGraph};
ghost use Rattle.ux_tokens.specs.Numbers.{different_texts};
ghost use Rattle.ux_tokens.specs.Tokens.{Token};
ghost use Rattle.ux_chart.specs.Places.{AreEdgesOf, AreEnough};
ghost use Rattle.ux_walk.specs.Literals.{AreReady};
ghost use Rattle.ux_walk.specs.Settings.{applied_text};
ghost use Rattle.ux_text_chart.specs.NetTables.{AreTablesBy, AreTablesFor, IsNumbering, IsTokenAt};

use crate::part_index::PartIndex;
use crate::state_indexes::{indexes_of, is_looked_up};
use std::alloc::Global;
use ux_alphabet::Alphabet;
use ux_base::Mem;
use ux_chart::PreparedNet;
use ux_net::{Edge, Net};
use ux_tokens::Text;
use ux_walk::config::Frame;
use ux_walk::look_ups::LookUps;
use ux_walk::matching::skip;
use ux_walk::words::Words;

/// What the charts of a net look up. Tokens are looked up by number: in the text itself, or, where
/// the tables serve any text, among the tokens of one.
#[derive(Drop)]
pub struct NetTables<'t> {
    /// The parts of the net, and what else charts ask of it.
    pub prepared: PreparedNet,
    /// The parts, by the tokens at which they may begin.
    pub index: PartIndex,
    /// The indexes of the states of many literals.
    pub look_ups: LookUps<'t>,
    /// The tokens by whose numbers tokens of any text are looked up.
    pub words: Option<Words<'t>>,
}

/// The token at a position, as tables know it.
#[derive(Clone, Copy)]
pub enum TokenAt {
    /// A token of this number.
    Number(u32),
    /// A token that has no number.
    Unknown,
    /// None: the text ends.
    End,
}

impl<'t> NetTables<'t> {
    /// The tables of a net for the charts of a text. Takes a step an edge and a token, and what the
    /// indexes take.
    pub fn of(alloc: Global, net: &Net, text: &'t Text, alphabet: &Alphabet) -> Mem<NetTables<'t>>
        ensures { IfOk result (AreTablesFor alphabet.now text.now net.now) }
    {
        NetTables::numbered(alloc, net, text, alphabet)
    }

    /// The tables of a net for the charts of any text. Its tokens are looked up among those of this
    /// one; where one isn't among them, all parts and edges are tried.
    pub fn shared(
        alloc: Global,
        net: &Net,
        text: &'t Text,
        alphabet: &Alphabet,
    ) -> Mem<NetTables<'t>>
        ensures { (tokens : List Token) →
            IfOk result (AreTablesFor alphabet.now tokens net.now) }
    {
        let mut tables = NetTables::numbered(alloc, net, text, alphabet)?;
        let words = Words::of(alloc, text, alphabet)?;
        tables.words = Some(words);
        Ok(tables)
    }

    /// The tables of a net by the numbers of a text's tokens.
    fn numbered(alloc: Global, net: &Net, text: &'t Text, alphabet: &Alphabet) -> Mem<NetTables<'t>>
        ensures tables { IfOk result (AreTablesBy alphabet.now (different_texts text.now) net.now) }
        ensures own { IfOk result (λ tables. tables.words ≡ None) }
    {
        let prepared = PreparedNet::of(alloc, net)?;
        let index = PartIndex::of(alloc, net, &prepared.parts, text, alphabet)?;
        let look_ups = indexes_of(alloc, net, text, alphabet)?;
        Ok(NetTables {
            prepared,
            index,
            look_ups,
            words: None,
        })
    }

    /// What is known of the token at a position, after an optional space.
    pub(crate) fn token_at(&self, text: &Text, at: usize) -> TokenAt
        ensures { (alphabet : Letters) (texts : List (List ℕ)) →
            IsNumbering alphabet texts text.now self.now.words →
            IsTokenAt texts text.now at result }
    {
        let place = skip(text, at);
        if text.len() <= place {
            return TokenAt::End;
        }
        match &self.words {
            Some(words) => number_among(words, text.token(place)),
            None => TokenAt::Number(text.number(place)),
        }
    }

    /// The places of those of a state's edges that may apply at a position, where an index is kept.
    pub(crate) fn places(
        &self,
        alloc: Global,
        text: &Text,
        state: Frame,
        edges: &[Edge],
        at: usize,
    ) -> Mem<Option<Vec<u32>>>
        ensures { (alphabet : Letters) (tables : Tables) (net : List NetGraph) →
            AreTablesFor alphabet text.now net self.now →
            AreEdgesOf net state.graph state.state edges.now →
            IfOk result (λ places. IfSome places (λ places.
            AreEnough (applied_text alphabet text.now tables) edges.now places.items at)) }
    {
        if !is_looked_up(edges) {
            return Ok(None);
        }
        let Some(index) = self.look_ups.index(state) else {
            return Ok(None);
        };
        let TokenAt::Number(number) = self.token_at(text, at) else {
            return Ok(None);
        };
        let places = index.places(alloc, number)?;
        Ok(Some(places))
    }
}

/// The number of the token of this text, if it is one of the words.
fn number_among(words: &Words, text: &str) -> TokenAt
    ensures number { (number : ℕ) → result ≡ TokenAt.Number number →
        (alphabet : Letters) (texts : List (List ℕ)) → AreReady alphabet texts words.now →
        slice_get texts number ≡ Some text.now }
    ensures never { result ≡ TokenAt.End → ⊥ }
{
    match words.number(text) {
        Some(number) => TokenAt::Number(number),
        None => TokenAt::Unknown,
    }
}
