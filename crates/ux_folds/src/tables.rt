//! The tables of a rendering: its texts, what is known of variables, and its states.
//!
//! Each call here makes what is kept after a step of what is kept before it, as the definition of
//! rendering says (`Turns`). Numbers keep what they stand for.

ghost use Rattle.std.specs.Prelude.{◌≡◌, ◌<◌, ◌≤◌, ℕ, List, IfOk, IfSome, OnOk, Some, length, slice_get};
ghost use Rattle.std.specs.Str.{IsUtf8};
ghost use Rattle.ux_base.specs.Distinct.{StandOnce};
ghost use Rattle.ux_outputs.specs.declared.hit.Hit.{Hit};
ghost use Rattle.ux_tokens.specs.Tokens.{Token};
ghost use Rattle.ux_outputs.specs.Rendering.{State, after_cut, after_take, begin_of, hit_of, span_after, text_taken};
ghost use Rattle.ux_folds.specs.Tables.{AreTables, IsGrown, Stands, Turns, IsPushed, span_to, states_of, texts_of};

use crate::kept::{Kept, Known};
use crate::lists::Lists;
use crate::numbered::{Numbered, place};
use crate::taking::{after_spaces, between};
use std::alloc::Global;
use ux_base::{Mem, Mode, Txt};
use ux_outputs::Hit;
use ux_tokens::Text;

/// The tables of a rendering.
#[derive(Drop)]
pub struct Tables {
    /// The texts, by their bytes.
    pub texts: Lists<u8>,
    /// What is known of the variables that count, in the order of their names.
    pub variables: Lists<Known>,
    /// The states, each once.
    pub states: Numbered<Kept>,
}

impl Tables {
    /// The tables without a state. Takes no memory.
    pub fn new(alloc: Global) -> Tables
        ensures { (names : List (List ℕ)) → StandOnce names → AreTables names result }
    {
        Tables {
            texts: Lists::new(alloc),
            variables: Lists::new(alloc),
            states: Numbered::new(alloc),
        }
    }

    /// What is kept at a state.
    pub fn state(&self, number: usize) -> Option<Kept>
        ensures { result ≡ slice_get (states_of self.now) number }
    {
        self.states.get(number)
    }

    /// The number of the state of which this is kept.
    pub fn number(&mut self, kept: Kept) -> Mem<usize>
        ensures tables { IfOk result (λ number. (names : List (List ℕ)) → AreTables names self.old →
            IsGrown names self.old self.new
            × (slice_get (states_of self.new) number ≡ Some kept)) }
        ensures stands { IfOk result (λ number. (tokens : List Token) (names : List (List ℕ))
            (state : State) → Stands tokens names self.old kept state →
            Stands tokens names self.new kept state) }
    {
        place(&mut self.states, kept)
    }

    /// Takes the tokens from the position to a later one.
    pub fn take(&mut self, kept: Kept, from: usize, to: usize, mode: Mode, text: &Text) -> Mem<Kept>
        requires here { from ≡ kept.position }
        requires some { from < to }
        requires within { to ≤ length text.now }
        ensures { IfOk result (λ next. (names : List (List ℕ)) → Turns text.now names
            self.old self.new kept (λ state. after_take mode text.now state from to) next) }
    {
        let begin = begin_after(kept.first, from, to, text);
        let taken = self.push_taken(kept.text, begin, to, mode, text)?;
        Ok(Kept {
            position: to,
            text: taken,
            first: first_after(kept.first, begin, to),
            ..kept
        })
    }

    /// The number of a text, with what stands in it for tokens that are taken behind it.
    fn push_taken(
        &mut self,
        front: usize,
        begin: usize,
        to: usize,
        mode: Mode,
        text: &Text,
    ) -> Mem<usize>
        requires { to ≤ length text.now }
        ensures pushed { IfOk result
            (IsPushed self.old self.new front (text_taken mode text.now begin to)) }
        ensures utf8 { OnOk result (IsUtf8 (text_taken mode text.now begin to)) }
    {
        match mode {
            Mode::Ignore | Mode::Merge => self.push_text(front, between(text, begin, to)),
            Mode::Replace => Ok(front),
        }
    }

    /// The number of a text, with a text behind it.
    pub fn push_text(&mut self, front: usize, more: &str) -> Mem<usize>
        ensures { IfOk result (IsPushed self.old self.new front more.now) }
    {
        self.push_bytes(front, more.as_bytes())
    }

    /// The number of a text, with the bytes of a text behind it.
    pub fn push_bytes(&mut self, front: usize, more: &[u8]) -> Mem<usize>
        ensures { IfOk result (IsPushed self.old self.new front more.now) }
    {
        self.texts.extend(front, more)
    }

    /// What is rendered, where a token but a space was taken after the last cut.
    pub fn hit(&self, alloc: Global, kept: Kept, text: &Text) -> Mem<Option<Hit>>
        requires { (names : List (List ℕ)) × (state : State)
            × Stands text.now names self.now kept state }
        ensures { IfOk result (λ hit. (names : List (List ℕ)) (state : State) →
            AreTables names self.now → Stands text.now names self.now kept state →
            hit ≡ hit_of state) }
    {
        let Some(first) = kept.first else {
            return Ok(None);
        };
        // For the prover: there are fewer than 2^32 tokens.
        let _few = text.len();
        let bytes = self.texts.items(alloc, kept.text)?;
        let last = kept.position - 1;
        match String::from_utf8(bytes) {
            Ok(rendered) => Ok(Some(Hit {
                first: first as u32,
                last: last as u32,
                text: Txt::new(rendered),
            })),
            Err(_never) => Ok(None),
        }
    }
}

/// What is kept where what stands to the left is left out.
pub fn cut(kept: Kept) -> Kept
    ensures { (tokens : List Token) (names : List (List ℕ)) (tables : Tables) →
        Turns tokens names tables tables kept after_cut result }
{
    Kept {
        text: 0,
        first: None,
        ..kept
    }
}

/// Where the tokens begin that are taken and not left out.
fn begin_after(first: Option<usize>, from: usize, to: usize, text: &Text) -> usize
    requires in_order { from ≤ to }
    requires within { to ≤ length text.now }
    ensures { (position : ℕ) → result ≡ begin_of text.now (span_to position first) from to }
{
    match first {
        Some(_) => from,
        None => after_spaces(text, from, to),
    }
}

/// The first token, once those from `begin` to `to` are taken.
fn first_after(first: Option<usize>, begin: usize, to: usize) -> Option<usize>
    ensures span { (position : ℕ) →
        span_to to result ≡ span_after (span_to position first) begin to }
    ensures below { (position : ℕ) → position ≤ to → IfSome first (λ token. token < position) →
        IfSome result (λ token. token < to) }
{
    match first {
        Some(token) => Some(token),
        None if begin < to => Some(begin),
        None => None,
    }
}
