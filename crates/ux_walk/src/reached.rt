//! What a walk has reached, and how it goes one step on.

ghost use Rattle.std.specs.Prelude.{◌≡◌, ◌<◌, ◌≤◌, ◌↔◌, ℕ, List, [], ◌∷◌, ◌++◌, Contains, IfOk, IfSome, IsTrue, OnOk, length, option_copied, reverse, slice_get, Some};
ghost use Rattle.ux_alphabet.specs.Letters.{Letters};
ghost use Rattle.ux_lexical_tables.specs.Tables.{Tables};
ghost use Rattle.ux_mask_table.specs.MaskedTexts.{AreEdgesKnown, HasTable, IsKnown};
ghost use Rattle.ux_net.specs.declared.net_graph.NetGraph.{NetGraph};
ghost use Rattle.ux_net.specs.Nets.{states_of};
ghost use Rattle.ux_outputs.specs.declared.event.Event.{Event};
ghost use Rattle.ux_tokens.specs.Numbers.{different_texts};
ghost use Rattle.ux_tokens.specs.Tokens.{Token};
ghost use Rattle.ux_walk.specs.Links.{AreOnce};
ghost use Rattle.ux_walk.specs.LookUps.{AreSound};
ghost use Rattle.ux_walk.specs.declared.config.Found.{Found};
ghost use Rattle.ux_walk.specs.declared.config.Visit.{Visit};
ghost use Rattle.ux_walk.specs.Groups.{AreGrouped, IsIn};
ghost use Rattle.ux_walk.specs.Configurations.{Adds, AddsFrom, IsFoundAs, IsNothing, IsPast, IsSound, IsVisit, NamesEventsIn, Notes, Numbers, Of, Places, calling, going, texts_of};
ghost use Rattle.ux_walk.specs.Contexts.{ContextsTold, MayAsk, Opens};
ghost use Rattle.ux_walk.specs.Courses.{Course, GoesOn, IsBehind, IsClosed, IsOver, IsOverAt, IsOverSome, IsOverSomeAt, at_state, passing, put_event, put_events};
ghost use Rattle.ux_walk.specs.Noted.{StandsFor};
ghost use Rattle.ux_walk.specs.LabelMatches.{IsLabelMatch};
ghost use Rattle.ux_walk.specs.Settings.{masked_setting};

use crate::config::{Config, Found, Frame, Return, Visit};
use crate::contexts::Contexts;
use crate::groups::Groups;
use crate::joining::join_all;
use crate::lists::Lists;
use crate::look_ups::LookUps;
use crate::matching::{LabelMatch, label_match_at, skip};
use crate::noted::Noted;
use crate::sets::{add, number, put, stand_once};
use crate::texts::Texts;
use indexmap::IndexSet;
use std::alloc::Global;
use ux_base::{Lst, Mem};
use ux_grf::Piece;
use ux_mask_table::MaskedText;
use ux_net::{Edge, Label, State};
use ux_outputs::Event;

/// As many edges are tried one by one: no index of them is made.
const FEW: usize = 8;

/// The visits, with their configurations, their callers and what was found of them.
#[derive(Drop)]
pub struct Reached<'t> {
    events: Lists<Noted>,
    /// The texts of which the events speak, each once.
    texts: Texts<'t>,
    visits: IndexSet<Visit>,
    /// The configurations, each once, in the order in which the walk goes on from them.
    configs: IndexSet<Config>,
    /// Who waits for what each visit derives.
    returns: Groups<Return>,
    /// What was found of each visit.
    found: Groups<Found>,
}

impl<'t> Reached<'t> {
    /// Nothing yet, with the texts of which events spoke before. Takes no memory.
    pub fn new(alloc: Global, texts: Texts<'t>) -> Reached<'t>
        ensures { IsNothing result }
    {
        Reached {
            events: Lists::new(alloc),
            texts,
            visits: IndexSet::new(alloc),
            configs: IndexSet::new(alloc),
            returns: Groups::new(alloc),
            found: Groups::new(alloc),
        }
    }

    /// The texts, given up.
    pub fn into_texts(self) -> Texts<'t> {
        self.texts
    }

    /// The configuration of this number, counted from 0 in the order in which they were reached.
    /// Fewer than 2^63 fit.
    pub fn config(&self, number: usize) -> Option<Config>
        ensures is { result ≡ slice_get self.now.configs.keys number }
        ensures few { IfSome result (λ config. number < 9223372036854775807) }
    {
        self.configs.len();
        self.configs.get_index(number).copied()
    }

    /// The derivations of a visit that were found, each once, with its end and its events.
    pub fn derivations(&self, alloc: Global, visit: usize) -> Mem<Vec<(usize, Lst<Event>)>>
        requires { IsSound self.now }
        ensures exactly { IfOk result (λ found. (v : Visit) → IsVisit self.now visit v →
            (end : ℕ) (events : List Event) →
            Contains found.items (end, events) ↔ IsFoundAs self.now v end events) }
        ensures once { IfOk result (λ found. AreOnce found.items) }
    {
        let of_visit = self.found_of(alloc, visit)?;
        let mut derivations = Vec::new(alloc);
        for found in of_visit.as_slice() {
            let events = self.spell(alloc, found.events)?;
            derivations.push((found.end, Lst::new(events)))?;
        }
        stand_once(&of_visit);
        self.visits_stand_once();
        self.events.links_stand_once();
        self.texts.texts_stand_once();
        Ok(derivations)
    }

    /// No visit has two numbers.
    pub fn visits_stand_once(&self)
        ensures { AreOnce self.now.visits.keys }
    {
        stand_once(&self.visits);
    }

    /// What was found of a visit, each once.
    fn found_of(&self, alloc: Global, visit: usize) -> Mem<IndexSet<Found>>
        ensures { IfOk result (λ found. AreGrouped self.now.found →
            (f : Found) → Contains found.keys f ↔ IsIn self.now.found visit f) }
    {
        let listed = self.found.of(alloc, visit)?;
        let mut found = IndexSet::new(alloc);
        for derivation in listed.as_slice() {
            put(&mut found, *derivation)?;
        }
        Ok(found)
    }

    /// The events that a number names, in order.
    fn spell(&self, alloc: Global, number: usize) -> Mem<Vec<Event>>
        requires { IsSound self.now }
        ensures { IfOk result (λ events. (before : List Event) →
            NamesEventsIn self.now number before → events.items ≡ reverse before) }
    {
        let listed = self.events.spell(alloc, number)?;
        let mut events = Vec::new(alloc);
        for noted in listed.as_slice() {
            let event = self.event(alloc, *noted)?;
            events.push(event)?;
        }
        Ok(events)
    }

    /// The event for which a noted one stands.
    fn event(&self, alloc: Global, noted: Noted) -> Mem<Event>
        ensures { IfOk result (λ event. (wanted : Event) →
            StandsFor (texts_of self.now) noted wanted → event ≡ wanted) }
    {
        match noted {
            Noted::Take { from, to } => Ok(Event::Take { from, to }),
            Noted::Put(place) => Ok(Event::Put(self.texts.text(alloc, place)?)),
            Noted::Value(place) => Ok(Event::Value(self.texts.text(alloc, place)?)),
            Noted::Begin(place) => Ok(Event::Begin(self.texts.text(alloc, place)?)),
            Noted::End(place) => Ok(Event::End(self.texts.text(alloc, place)?)),
            Noted::Cut => Ok(Event::Cut),
        }
    }

    /// Goes one step on from a configuration: over each edge of its state, and back where that is
    /// final.
    pub fn step<C: Contexts>(
        &mut self,
        alloc: Global,
        masked: &MaskedText<'t>,
        contexts: &C,
        look_ups: &mut LookUps<'t>,
        config: Config,
    ) -> Mem<()>
        requires table { HasTable masked.now }
        requires sound { AreSound masked.now.alphabet.now masked.now.net.now
            (different_texts masked.now.text.now) look_ups.now }
        requires told { ContextsTold (masked_setting masked.now)
            (C.asks contexts.now) (C.applies contexts.now) }
        requires inside { config.at ≤ length masked.now.text.now }
        ensures sound { AreSound masked.now.alphabet.now masked.now.net.now
            (different_texts masked.now.text.now) look_ups.new }
        ensures adds { OnOk result (AddsFrom self.old self.new config (λ before.
            GoesOn masked.now.alphabet.now masked.now.text.now masked.now.applied.now
            (C.applies contexts.now) masked.now.net.now config.here [] config.at before)) }
    {
        let Some(state) = masked.net.state(config.here.graph, config.here.state) else {
            return Ok(());
        };
        self.follow_state(alloc, masked, contexts, look_ups, config, state)?;
        if state.is_final {
            self.leave(alloc, config)?;
        }
        Ok(())
    }

    /// Goes over each edge of the state that applies: of many those that may apply at the token.
    fn follow_state<C: Contexts>(
        &mut self,
        alloc: Global,
        masked: &MaskedText<'t>,
        contexts: &C,
        look_ups: &mut LookUps<'t>,
        config: Config,
        state: &'t State,
    ) -> Mem<()>
        requires known { AreEdgesKnown masked.now state.now.edges }
        requires asked { MayAsk (C.asks contexts.now) config.here.graph state.now.edges config.at }
        ensures sound { (net : List NetGraph) →
            slice_get (states_of net config.here.graph) config.here.state ≡ Some state.now →
            AreSound masked.now.alphabet.now net (different_texts masked.now.text.now)
            look_ups.old →
            AreSound masked.now.alphabet.now net (different_texts masked.now.text.now)
            look_ups.new }
        ensures adds { OnOk result ((net : List NetGraph) →
            slice_get (states_of net config.here.graph) config.here.state ≡ Some state.now →
            AreSound masked.now.alphabet.now net (different_texts masked.now.text.now)
            look_ups.old →
            AddsFrom self.old self.new config (λ before.
            IsOverSome masked.now.alphabet.now masked.now.text.now masked.now.applied.now
            (C.applies contexts.now) config.here [] config.at before state.now.edges)) }
    {
        let edges = state.edges.as_slice();
        let position = skip(masked.text, config.at);
        if !has_index(edges.len()) || masked.text.len() <= position {
            return self.follow_edges(alloc, masked, contexts, config, edges);
        }
        look_ups.meet(alloc, masked.text, masked.alphabet, config.here, edges)?;
        let Some(index) = look_ups.index(config.here) else {
            return self.follow_edges(alloc, masked, contexts, config, edges);
        };
        let places = index.places(alloc, masked.text.number(position))?;
        self.follow_places(alloc, masked, contexts, config, edges, places.as_slice())
    }

    /// Goes over the edges at the places that apply.
    fn follow_places<C: Contexts>(
        &mut self,
        alloc: Global,
        masked: &MaskedText,
        contexts: &C,
        config: Config,
        edges: &'t [Edge],
        places: &[u32],
    ) -> Mem<()>
        requires known { AreEdgesKnown masked.now edges.now }
        requires asked { MayAsk (C.asks contexts.now) config.here.graph edges.now config.at }
        ensures { OnOk result (AddsFrom self.old self.new config (λ before.
            IsOverSomeAt masked.now.alphabet.now masked.now.text.now masked.now.applied.now
            (C.applies contexts.now) config.here [] config.at before edges.now places.now)) }
    {
        for place in places {
            self.follow_place(alloc, masked, contexts, config, edges, *place)?;
        }
        Ok(())
    }

    /// Goes over the edge at a place, if it applies.
    fn follow_place<C: Contexts>(
        &mut self,
        alloc: Global,
        masked: &MaskedText,
        contexts: &C,
        config: Config,
        edges: &'t [Edge],
        place: u32,
    ) -> Mem<()>
        requires known { AreEdgesKnown masked.now edges.now }
        requires asked { MayAsk (C.asks contexts.now) config.here.graph edges.now config.at }
        ensures { OnOk result (AddsFrom self.old self.new config (λ before.
            IsOverAt masked.now.alphabet.now masked.now.text.now masked.now.applied.now
            (C.applies contexts.now) config.here [] config.at before edges.now place)) }
    {
        match edge_at(edges, place) {
            Some(edge) => self.follow(alloc, masked, contexts, config, edge),
            None => Ok(()),
        }
    }

    /// Goes over each of the edges that applies.
    fn follow_edges<C: Contexts>(
        &mut self,
        alloc: Global,
        masked: &MaskedText,
        contexts: &C,
        config: Config,
        edges: &'t [Edge],
    ) -> Mem<()>
        requires known { AreEdgesKnown masked.now edges.now }
        requires asked { MayAsk (C.asks contexts.now) config.here.graph edges.now config.at }
        ensures { OnOk result (AddsFrom self.old self.new config (λ before.
            IsOverSome masked.now.alphabet.now masked.now.text.now masked.now.applied.now
            (C.applies contexts.now) config.here [] config.at before edges.now)) }
    {
        for edge in edges {
            self.follow(alloc, masked, contexts, config, edge)?;
        }
        Ok(())
    }

    /// Goes over the edge, if it applies.
    fn follow<C: Contexts>(
        &mut self,
        alloc: Global,
        masked: &MaskedText,
        contexts: &C,
        config: Config,
        edge: &'t Edge,
    ) -> Mem<()>
        requires known { IsKnown masked.now edge.now.label }
        requires asked { Opens edge.now.label →
            C.asks contexts.now config.here.graph edge.now config.at }
        ensures { OnOk result (AddsFrom self.old self.new config (λ before.
            IsOver masked.now.alphabet.now masked.now.text.now masked.now.applied.now
            (C.applies contexts.now) config.here [] config.at before edge.now)) }
    {
        let matched = label_match_at(alloc, masked, &edge.label, config.at)?;
        if matched.is_closed() {
            return Ok(());
        }
        let events = self.put_out(config.events, edge.output.as_slice())?;
        self.go_on(alloc, contexts, Config { events, ..config }, edge, matched)
    }

    /// Goes on after an edge whose label applies in this way.
    fn go_on<C: Contexts>(
        &mut self,
        alloc: Global,
        contexts: &C,
        config: Config,
        edge: &'t Edge,
        matched: LabelMatch,
    ) -> Mem<()>
        requires asked { matched ≡ LabelMatch.Opens →
            C.asks contexts.now config.here.graph edge.now config.at }
        ensures { OnOk result ((alphabet : Letters) (tokens : List Token) (tables : Tables) →
            IsLabelMatch alphabet tokens tables edge.now.label config.at matched →
            AddsFrom self.old self.new config (λ before.
            IsBehind alphabet tokens tables (C.applies contexts.now) edge.now.label
            (at_state config.here edge.now.target) [] config.at before)) }
    {
        let here = Frame {
            graph: config.here.graph,
            state: edge.target,
        };
        match matched {
            LabelMatch::Takes(end) => self.take(config, here, end),
            LabelMatch::Spans(ends) => self.take_each(config, here, ends.as_slice()),
            LabelMatch::Stays => self.pass(config, here, &edge.label),
            LabelMatch::Calls(graph) => self.enter(alloc, contexts, config, here, graph),
            LabelMatch::Opens => {
                let closers = contexts.closers(here.graph, edge, config.at);
                self.close_each(config, closers)
            },
            LabelMatch::Closed => Ok(()),
        }
    }

    /// Goes on behind a context, at each of the states into which it is closed.
    fn close_each(&mut self, config: Config, closers: &[u32]) -> Mem<()>
        ensures { OnOk result (AddsFrom self.old self.new config (λ before w.
            (c : ℕ) × Contains closers.now c × IsClosed config.here [] config.at before c w)) }
    {
        for closer in closers {
            self.close(config, *closer)?;
        }
        Ok(())
    }

    /// Goes on behind a context that is closed into a state.
    fn close(&mut self, config: Config, closer: u32) -> Mem<()>
        ensures { OnOk result (AddsFrom self.old self.new config (λ before.
            IsClosed config.here [] config.at before closer)) }
    {
        let here = Frame {
            graph: config.here.graph,
            state: closer,
        };
        self.pend(Config { here, ..config })
    }

    /// Goes on in a frame after the tokens up to each of the ends.
    fn take_each(&mut self, config: Config, here: Frame, ends: &[usize]) -> Mem<()>
        ensures { OnOk result (AddsFrom self.old self.new config (λ before w.
            (end : ℕ) × Contains ends.now end × IsPast config.at here before end w)) }
    {
        for end in ends {
            self.take(config, here, *end)?;
        }
        Ok(())
    }

    /// Goes on in a frame after the tokens that were taken.
    fn take(&mut self, config: Config, here: Frame, end: usize) -> Mem<()>
        ensures { OnOk result (AddsFrom self.old self.new config (λ before.
            IsPast config.at here before end)) }
    {
        let taken = Noted::Take {
            from: config.at,
            to: end,
        };
        let events = self.note(config.events, taken)?;
        self.pend(Config {
            here,
            visit: config.visit,
            at: end,
            events,
        })
    }

    /// Goes on in a frame after a label that takes nothing.
    fn pass(&mut self, config: Config, here: Frame, label: &'t Label) -> Mem<()>
        ensures { OnOk result (AddsFrom self.old self.new config (λ before w.
            w ≡ going here config.at (passing label.now ++ before))) }
    {
        let events = self.note_passing(config.events, label)?;
        self.pend(Config {
            here,
            visit: config.visit,
            at: config.at,
            events,
        })
    }

    /// Visits a graph that is called, where it is entered.
    fn enter<C: Contexts>(
        &mut self,
        alloc: Global,
        contexts: &C,
        config: Config,
        here: Frame,
        graph: u32,
    ) -> Mem<()>
        ensures { OnOk result (AddsFrom self.old self.new config (λ before w.
            (C.applies contexts.now).enters graph config.at × (w ≡ record {
              frames = record { graph = graph; state = 0 } ∷ here ∷ [];
              at = config.at;
              before = before;
            }))) }
    {
        if !contexts.enters(graph, config.at) {
            return Ok(());
        }
        self.call(alloc, config, here, graph)
    }

    /// Visits a graph, to go on in the frame behind each of its derivations.
    fn call(&mut self, alloc: Global, config: Config, here: Frame, graph: u32) -> Mem<()>
        ensures { OnOk result (AddsFrom self.old self.new config (λ before w. w ≡ record {
          frames = record { graph = graph; state = 0 } ∷ here ∷ [];
          at = config.at;
          before = before;
        })) }
    {
        let called = Visit {
            graph,
            at: config.at,
        };
        let number = self.visit(called)?;
        let waiting = Return {
            visit: config.visit,
            here,
            events: config.events,
        };
        self.wait(alloc, number, called, waiting)
    }

    /// The number of a visit.
    pub fn visit(&mut self, visit: Visit) -> Mem<usize>
        ensures { IfOk result (Numbers self.old self.new visit) }
    {
        let number = number(&mut self.visits, visit)?;
        Ok(number)
    }

    /// Adds a caller of a visit, where it is new: the visit begins, unless it has begun, and the
    /// caller goes on behind what was found of it.
    fn wait(&mut self, alloc: Global, number: usize, called: Visit, waiting: Return) -> Mem<()>
        ensures { OnOk result ((v : Visit) (before : List Event) → IsSound self.old →
            IsVisit self.old number called → IsVisit self.old waiting.visit v →
            NamesEventsIn self.old waiting.events before →
            Adds (Of v (λ w. w ≡ calling called waiting.here before)) self.old self.new) }
    {
        if !self.returns.add(number, waiting)? {
            return Ok(());
        }
        add(&mut self.configs, beginning(number, called))?;
        let derived = self.found.of(alloc, number)?;
        join_all(
            alloc,
            &mut self.events,
            &mut self.configs,
            &[waiting],
            derived.as_slice(),
        )
    }

    /// Ends a visit: each of its callers goes on.
    fn leave(&mut self, alloc: Global, config: Config) -> Mem<()>
        ensures { OnOk result (AddsFrom self.old self.new config (λ before w. w ≡ record {
          frames = [];
          at = config.at;
          before = before;
        })) }
    {
        let found = Found {
            end: config.at,
            events: config.events,
        };
        if !self.found.add(config.visit, found)? {
            return Ok(());
        }
        let returns = self.returns.of(alloc, config.visit)?;
        join_all(
            alloc,
            &mut self.events,
            &mut self.configs,
            returns.as_slice(),
            &[found],
        )
    }

    /// Adds a configuration, where it is new.
    fn pend(&mut self, config: Config) -> Mem<()>
        ensures { OnOk result (AddsFrom self.old self.new config (λ before w.
            w ≡ going config.here config.at before)) }
    {
        add(&mut self.configs, config)?;
        Ok(())
    }

    /// The number of these events with those of an output after them.
    fn put_out(&mut self, events: usize, output: &'t [Piece]) -> Mem<usize>
        ensures { IfOk result
            (Notes self.old self.new (reverse (put_events output.now)) events) }
    {
        let mut number = events;
        for piece in output {
            number = self.put_piece(number, piece)?;
        }
        Ok(number)
    }

    /// The number of these events with that of a piece of an output after them.
    fn put_piece(&mut self, events: usize, piece: &'t Piece) -> Mem<usize>
        ensures { IfOk result (Notes self.old self.new (put_event piece.now ∷ []) events) }
    {
        match piece {
            Piece::Chars(text) => {
                let place = self.place(text.as_str())?;
                self.note(events, Noted::Put(place))
            },
            Piece::Value(name) => {
                let place = self.place(name.as_str())?;
                self.note(events, Noted::Value(place))
            },
        }
    }

    /// The number of these events with those of a label that takes nothing after them.
    fn note_passing(&mut self, events: usize, label: &'t Label) -> Mem<usize>
        ensures { IfOk result (Notes self.old self.new (passing label.now) events) }
    {
        match label {
            Label::Begin(name) => {
                let place = self.place(name.as_str())?;
                self.note(events, Noted::Begin(place))
            },
            Label::End(name) => {
                let place = self.place(name.as_str())?;
                self.note(events, Noted::End(place))
            },
            Label::Cut => self.note(events, Noted::Cut),
            Label::Empty
            | Label::CaseFolded(_)
            | Label::CaseExact(_)
            | Label::Mask(_)
            | Label::Brace(_)
            | Label::Space
            | Label::NoSpace
            | Label::Positive
            | Label::Negative
            | Label::ContextEnd
            | Label::Call(_) => Ok(events),
        }
    }

    /// The place of a text in the table.
    fn place(&mut self, text: &'t str) -> Mem<usize>
        ensures { IfOk result (Places self.old self.new text.now) }
    {
        self.texts.place(text)
    }

    /// The number of these events with one more after them.
    fn note(&mut self, events: usize, noted: Noted) -> Mem<usize>
        ensures { IfOk result (λ number. (event : Event) →
            StandsFor (texts_of self.old) noted event →
            Notes self.old self.new (event ∷ []) events number) }
    {
        self.events.cons(noted, events)
    }
}

/// The configuration with which a visit begins.
fn beginning(number: usize, visit: Visit) -> Config
    ensures { result ≡ record {
      visit = number;
      here = record { graph = visit.graph; state = 0 };
      at = visit.at;
      events = 0;
    } }
{
    let here = Frame {
        graph: visit.graph,
        state: 0,
    };
    Config {
        visit: number,
        here,
        at: visit.at,
        events: 0,
    }
}

/// Whether a state of so many edges gets an index: they are many, and 32 bits tell each place.
fn has_index(edges: usize) -> bool
    ensures { IsTrue result → edges < 4294967296 }
{
    FEW < edges && edges < 4_294_967_296
}

/// The edge at a place.
fn edge_at(edges: &[Edge], place: u32) -> Option<&Edge>
    ensures { option_copied result ≡ slice_get edges.now place }
{
    edges.get(place as usize)
}
