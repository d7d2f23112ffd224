//! Where derivations from a start end, as walks of the automaton tell it, or a chart of the text.

ghost use Rattle.std.specs.Prelude.{◌≡◌, ◌<◌, ◌≤◌, ◌↔◌, [], ℕ, List, Contains, OnOk, false, length};
ghost use Rattle.std.specs.List.Sorted.{IsStrictlyIncreasing};
ghost use Rattle.ux_meaning.specs.Texts.{IsSpaceAt};
ghost use Rattle.ux_text_chart.specs.TextCharts.{IsTextChart, chart_setting};
ghost use Rattle.ux_walk.specs.Ends.{AreEnds};
ghost use Rattle.ux_walk.specs.Settings.{Derives, Setting};
ghost use Rattle.ux_walker.specs.FirstEnds.{IsFirstEnd};
ghost use Rattle.ux_locate.specs.Finding.{IsFirstAfter};
ghost use Rattle.ux_outputs.specs.declared.event.Event.{Event};

use std::alloc::Global;
use std::marker::Model;
use ux_base::Mem;
use ux_text_chart::TextChart;
use ux_walker::Walker;

/// What tells where the derivations of a grammar over a text end.
pub trait Ends {
    ghost setting: { Self → Setting };

    /// Whether a derivation from a start at which no space stands may end after it.
    fn may_end(&self, start: usize) -> bool
        requires inside { start < length (setting self.now).tokens }
        ensures { result ≡ false → (IsSpaceAt (setting self.now).tokens start → ⊥) →
            AreEnds (setting self.now) start [] };

    /// Lets `ends` be the positions after the start at which a derivation from it ends, in order.
    fn list(&mut self, alloc: Global, start: usize, ends: &mut Vec<usize>) -> Mem<()>
        requires inside { start ≤ length (setting self.now).tokens }
        ensures same { setting self.new ≡ setting self.old }
        ensures ends { OnOk result (AreEnds (setting self.old) start ends.new.items) };

    /// Lets `ends` be the first of these positions alone, if there is any.
    fn first(&mut self, alloc: Global, start: usize, ends: &mut Vec<usize>) -> Mem<()>
        requires inside { start ≤ length (setting self.now).tokens }
        ensures same { setting self.new ≡ setting self.old }
        ensures first { OnOk result (IsFirstEnd (setting self.old) start ends.new.items) };
}

impl<'a> Ends for Walker<'a> {
    ghost setting = { λ walker. walker };

    fn may_end(&self, start: usize) -> bool {
        self.may_begin(start)
    }

    fn list(&mut self, alloc: Global, start: usize, ends: &mut Vec<usize>) -> Mem<()> {
        self.ends_from(alloc, start, ends)
    }

    fn first(&mut self, alloc: Global, start: usize, ends: &mut Vec<usize>) -> Mem<()> {
        self.first_end_from(alloc, start, ends)
    }
}

/// The ends that the chart of a text tells, seen as the setting of the chart. They are listed there, so
/// none is looked for.
#[derive(Drop)]
pub struct ChartEnds<'a> {
    chart: &'a TextChart<'a>,
}

impl<'a> Model for ChartEnds<'a> {
    ghost use Rattle.ux_text_chart.specs.TextCharts.{IsTextChart, chart_setting};
    ghost use Rattle.ux_walk.specs.Settings.{Setting};

    ghost Value = { Setting };

    ghost view = { λ ends. chart_setting ends.chart.now };

    ghost invariant = { λ ends. IsTextChart ends.chart.now };
}

impl<'a> ChartEnds<'a> {
    /// The ends that this chart tells.
    pub fn of(chart: &'a TextChart<'a>) -> ChartEnds<'a>
        requires { IsTextChart chart.now }
        ensures { result ≡ chart_setting chart.now }
    {
        ChartEnds { chart }
    }

    /// The positions to which the main graph derives from a position, in order.
    fn at(&self, start: usize) -> &[usize]
        requires inside { start ≤ length self.now.tokens }
        ensures exactly { (end : ℕ) → Contains result.now end
            ↔ ((events : List Event) × Derives self.now start end events) }
        ensures ascending { IsStrictlyIncreasing result.now }
    {
        let chart = self.chart;
        // A net has a main graph.
        let _graphs = chart.basis.text.net.graphs();
        chart.ends(1, start)
    }
}

impl<'a> Ends for ChartEnds<'a> {
    ghost setting = { λ ends. ends };

    fn may_end(&self, start: usize) -> bool {
        !self.at(start).is_empty()
    }

    fn list(&mut self, alloc: Global, start: usize, ends: &mut Vec<usize>) -> Mem<()> {
        ends.clear();
        ends.extend_from_slice(self.at(start))?;
        keep_after(ends, start);
        Ok(())
    }

    fn first(&mut self, alloc: Global, start: usize, ends: &mut Vec<usize>) -> Mem<()> {
        ends.clear();
        push_first_after(self.at(start), start, ends)
    }
}

/// Adds the first of the positions that is after a start, if there is any.
fn push_first_after(positions: &[usize], start: usize, ends: &mut Vec<usize>) -> Mem<()>
    requires ascending { IsStrictlyIncreasing positions.now }
    requires none { ends.old.items ≡ [] }
    ensures { OnOk result (IsFirstAfter positions.now start ends.new.items) }
{
    for position in positions {
        if start < *position {
            ends.push(*position)?;
            return Ok(());
        }
    }
    Ok(())
}

/// Keeps the positions after a start, in their order.
fn keep_after(positions: &mut Vec<usize>, start: usize)
    ensures exactly { (end : ℕ) → Contains positions.new.items end
        ↔ (Contains positions.old.items end × (start < end)) }
    ensures ascending { IsStrictlyIncreasing positions.old.items →
        IsStrictlyIncreasing positions.new.items }
{
    positions.retain(|position| start < *position);
}
