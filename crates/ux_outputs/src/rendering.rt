//! A rendering on its way through the events of a derivation.
//!
//! It keeps what the definition's state tells, with no copy that isn't needed. Tokens taken one after
//! another wait, and are written as one slice of the text when an output comes or the events end.
//! What outputs collect is written once, however many are open, and only once one was opened. What
//! `variables` and `answering` have are the rendering's other steps.

ghost use Rattle.std.specs.Prelude.{◌≡◌, ◌<◌, ◌≤◌, List, [], ◌∷◌, IfOk, OnOk, length, if◌then◌else◌};
ghost use Rattle.ux_base.specs.declared.settings.Mode.{Mode};
ghost use Rattle.ux_tokens.specs.Tokens.{Token};
ghost use Rattle.ux_outputs.specs.Rendering.{after_cut, after_event, after_take, hit_of, span_after, state_at};
ghost use Rattle.ux_outputs.specs.Following.{FollowWithin};
ghost use Rattle.ux_outputs.specs.Kept.{IsKept, IsWritten, state_of};

use crate::event::Event;
use crate::hit::Hit;
use crate::span::Span;
use crate::table::{Table, empty_table};
use crate::taking::{after_spaces, push_taken};
use std::alloc::Global;
use ux_base::{Mem, Mode, NoVar, Txt};
use ux_tokens::Text;

/// What is rendered so far.
#[derive(Drop)]
pub struct Rendering<'a> {
    /// The position.
    pub position: usize,
    /// The first and the last token, once one was taken that is no space.
    pub span: Option<Span>,
    /// The hit's text, but for the tokens from `unwritten` to the position.
    pub written: String,
    /// The position from which tokens wait to be written.
    pub unwritten: usize,
    /// What is known of the variables.
    pub table: Table<'a>,
    /// What was put out since the first output was opened.
    pub collected: String,
    /// Whether an output was opened.
    pub collects: bool,
}

impl<'a> Rendering<'a> {
    /// A rendering from a start. Takes no memory.
    pub fn new(alloc: Global, start: usize) -> Rendering<'a>
        ensures kept { (tokens : List Token) → start ≤ length tokens → IsKept tokens result }
        ensures state { (mode : Mode) (tokens : List Token) →
            state_of mode tokens result ≡ state_at start }
    {
        Rendering {
            position: start,
            span: None,
            written: String::new(alloc),
            unwritten: start,
            table: empty_table(alloc),
            collected: String::new(alloc),
            collects: false,
        }
    }

    /// Follows the next event. Answers whether the derivation goes on, and isn't dropped.
    pub fn follow(&mut self, event: &'a Event, mode: Mode, novar: NoVar, text: &Text) -> Mem<bool>
        requires kept { IsKept text.now self.old }
        requires follow { FollowWithin text.now self.old.position (event.now ∷ []) }
        ensures kept { OnOk result (IsKept text.now self.new) }
        ensures state { IfOk result (λ goes_on.
            after_event mode novar text.now (state_of mode text.now self.old) event.now
            ≡ (if goes_on then Some (state_of mode text.now self.new) else None)) }
    {
        match event {
            Event::Take { from, to } => self.take(*from, *to, text),
            Event::Put(put) => self.put(put.as_str(), mode, text)?,
            Event::Value(asked) => return self.answer(asked.as_str(), mode, novar, text),
            Event::Begin(name) => self.begin(name.as_str())?,
            Event::End(name) => self.end(name.as_str(), text)?,
            Event::Cut => self.cut(),
        }
        Ok(true)
    }

    /// What is rendered, once all events were followed.
    pub fn finish(mut self, mode: Mode, text: &Text) -> Mem<Option<Hit>>
        requires kept { IsKept text.now self }
        ensures { IfOk result (λ hit. hit ≡ hit_of (state_of mode text.now self.entry)) }
    {
        let Some(span) = self.span else {
            return Ok(None);
        };
        let _few = text.len();
        self.write(mode, text)?;
        Ok(Some(Hit {
            first: span.first as u32,
            last: span.last as u32,
            text: Txt::new(self.written),
        }))
    }

    /// Takes the tokens from the position to a later one.
    fn take(&mut self, from: usize, to: usize, text: &Text)
        requires kept { IsKept text.now self.old }
        requires here { from ≡ self.old.position }
        requires some { from < to }
        requires within { to ≤ length text.now }
        ensures kept { IsKept text.now self.new }
        ensures state { (mode : Mode) → state_of mode text.now self.new
            ≡ after_take mode text.now (state_of mode text.now self.old) from to }
    {
        match self.span {
            Some(span) => self.take_on(span, to),
            None => self.take_first(from, to, text),
        }
    }

    /// Takes tokens as long as the rendering is fresh.
    fn take_first(&mut self, from: usize, to: usize, text: &Text)
        requires kept { IsKept text.now self.old }
        requires fresh { self.old.span ≡ None }
        requires in_order { from ≤ to }
        requires within { to ≤ length text.now }
        ensures kept { IsKept text.now self.new }
        ensures state { (mode : Mode) → state_of mode text.now self.new
            ≡ after_take mode text.now (state_of mode text.now self.old) from to }
    {
        let begin = after_spaces(text, from, to);
        self.span = span_of(begin, to);
        self.unwritten = begin;
        self.position = to;
    }

    /// Takes more tokens.
    fn take_on(&mut self, span: Span, to: usize)
        requires begun { self.old.span ≡ Some span }
        requires some { self.old.position < to }
        ensures kept { (tokens : List Token) → IsKept tokens self.old → to ≤ length tokens →
            IsKept tokens self.new }
        ensures state { (mode : Mode) (tokens : List Token) → IsKept tokens self.old →
            state_of mode tokens self.new
            ≡ after_take mode tokens (state_of mode tokens self.old) self.old.position to }
    {
        let last = to - 1;
        self.span = Some(Span { last, ..span });
        self.position = to;
    }

    /// Writes the tokens that wait.
    pub(crate) fn write(&mut self, mode: Mode, text: &Text) -> Mem<()>
        requires kept { IsKept text.now self.old }
        ensures { OnOk result (IsWritten mode text.now self.old self.new) }
    {
        push_taken(&mut self.written, text, mode, self.unwritten, self.position)?;
        self.unwritten = self.position;
        Ok(())
    }

    /// Leaves out what stands to the left.
    fn cut(&mut self)
        ensures kept { (tokens : List Token) → IsKept tokens self.old → IsKept tokens self.new }
        ensures state { (mode : Mode) (tokens : List Token) →
            state_of mode tokens self.new ≡ after_cut (state_of mode tokens self.old) }
    {
        self.written.clear();
        self.span = None;
        self.unwritten = self.position;
    }
}

/// The first and the last token, where some are taken.
fn span_of(begin: usize, to: usize) -> Option<Span>
    ensures { result ≡ span_after None begin to }
{
    if begin < to {
        Some(Span {
            first: begin,
            last: to - 1,
        })
    } else {
        None
    }
}
