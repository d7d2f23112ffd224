//! The hits of a grammar in a text that a policy keeps, with their texts.
//!
//! A grammar without cuts is searched start by start (`by_start`); of any other all hits are listed first
//! (`by_chart`). The hits are put in order at the end, each once: several derivations may render the
//! same one.

ghost use Rattle.std.specs.Prelude.{ℕ, ◌+◌, ◌*◌, ◌≤◌, IfOk, length};
ghost use Rattle.ux_lexical_tables.specs.Belonging.{Belongs};
ghost use Rattle.ux_mask_table.specs.MaskedTexts.{HasTable};
ghost use Rattle.ux_mask_table.specs.NetMasks.{AreNetMasks};
ghost use Rattle.ux_net.specs.Masks.{IsMaskCount};
ghost use Rattle.ux_net.specs.Nets.{net_grammar};
ghost use Rattle.ux_locate.specs.Finding.{HasMasks, IsFound, IsHitFrom, tokens_in};
ghost use Rattle.ux_locate.specs.Hits.{IsHit};
ghost use Rattle.ux_locate.specs.Index.{IsKeptListing};

use crate::by_chart::all_hits;
use crate::by_start::kept_hits;
use crate::keeping::keep;
use crate::search::Search;
use crate::sorting::sort_hits;
use std::alloc::Global;
use std::sync::ledger::Ledger;
use ux_alphabet::Alphabet;
use ux_base::{Mem, Mode, NoVar, Policy, Steps};
use ux_lexical_tables::LexicalTables;
use ux_mask_table::{MaskedText, NetMasks};
use ux_net::Net;
use ux_outputs::Hit;
use ux_tokens::Text;

/// The hits that the policy keeps, each once, by first token, last token and the bytes of the text.
///
/// Of a grammar without cuts, a start inside a kept hit costs nothing but with `Policy::All`, which keeps
/// all hits. From a start at which no derivation ends after it, it takes no more than a walk that lists no
/// events; or a look into a chart of the text, which is filled first where the grammar has contexts or
/// calls. Where outputs are ignored `locate_spans` gives the same hits without their texts, and
/// goes by these alone. A grammar with cuts costs a chart of the text, and all hits are listed before some
/// are kept. Each different mask of the grammar is tried at most once at a place of the text, which is a
/// step.
pub fn locate<L: Ledger>(
    alloc: Global,
    net: &Net,
    text: &Text,
    alphabet: &Alphabet,
    applied: &LexicalTables,
    mode: Mode,
    novar: NoVar,
    policy: Policy,
    steps: &mut Steps<L>,
) -> Mem<Vec<Hit>>
    requires belongs { Belongs alphabet.now text.now applied.now }
    ensures hits { IfOk result (λ hits. IsKeptListing policy
        (IsHit alphabet.now text.now applied.now (net_grammar net.now) mode novar)
        hits.items) }
    ensures steps { (count : ℕ) → IsMaskCount net.now count →
        steps.new ≤ steps.old + count * (length text.now + 1) }
{
    let masks = NetMasks::of(alloc, net)?;
    locate_by(
        alloc, net, &masks, text, alphabet, applied, mode, novar, policy, steps,
    )
}

/// The same, by the masks of the net.
fn locate_by<L: Ledger>(
    alloc: Global,
    net: &Net,
    masks: &NetMasks,
    text: &Text,
    alphabet: &Alphabet,
    applied: &LexicalTables,
    mode: Mode,
    novar: NoVar,
    policy: Policy,
    steps: &mut Steps<L>,
) -> Mem<Vec<Hit>>
    requires masks { AreNetMasks net.now masks.now }
    requires belongs { Belongs alphabet.now text.now applied.now }
    ensures hits { IfOk result (λ hits. IsKeptListing policy
        (IsHit alphabet.now text.now applied.now (net_grammar net.now) mode novar)
        hits.items) }
    ensures steps { (count : ℕ) → IsMaskCount net.now count →
        steps.new ≤ steps.old + count * (length text.now + 1) }
{
    let masked = MaskedText::of(alloc, net, masks, text, alphabet, applied, steps)?;
    hits_in(alloc, &masked, mode, novar, policy)
}

/// The same, in a text with what the masks accept in it.
fn hits_in(
    alloc: Global,
    masked: &MaskedText,
    mode: Mode,
    novar: NoVar,
    policy: Policy,
) -> Mem<Vec<Hit>>
    requires masks { HasTable masked.now }
    ensures { IfOk result (λ hits. IsKeptListing policy
        (IsHit masked.now.alphabet.now masked.now.text.now masked.now.applied.now
        (net_grammar masked.now.net.now) mode novar) hits.items) }
{
    let search = Search {
        masked,
        mode,
        novar,
        policy,
    };
    listed_hits(alloc, &search)
}

/// The hits that are kept, put in order.
fn listed_hits(alloc: Global, search: &Search) -> Mem<Vec<Hit>>
    requires masks { HasMasks search.now }
    ensures { IfOk result (λ hits. IsKeptListing search.now.policy
        (IsFound (tokens_in search.now) (IsHitFrom search.now)) hits.items) }
{
    if search.masked.net.cuts_nothing() {
        let mut hits = kept_hits(alloc, search)?;
        sort_hits(&mut hits);
        return Ok(hits);
    }
    let hits = all_hits(alloc, search)?;
    keep(alloc, search.policy, hits)
}
