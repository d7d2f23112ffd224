//! What a chart of a text tells a walk: which contexts apply, and which calls lead to an end.

ghost use Rattle.std.specs.Prelude.{◌≡◌, ◌↔◌, IsTrue};
ghost use Rattle.ux_text_chart.specs.TextCharts.{IsTextChart, chart_setting};
ghost use Rattle.ux_chart_contexts.specs.Telling.{DerivesSome, IsAskedOf, levelled};

use std::marker::Model;
use ux_net::Edge;
use ux_text_chart::TextChart;
use ux_walk::Contexts;

/// The contexts and the calls of a net, as the chart of a text tells them. Contracts see what the chart
/// is made for, with its levels.
#[derive(Drop)]
pub struct ChartContexts<'a> {
    chart: &'a TextChart<'a>,
}

impl<'a> Model for ChartContexts<'a> {
    ghost use Rattle.ux_text_chart.specs.TextCharts.{IsTextChart};
    ghost use Rattle.ux_chart_contexts.specs.Telling.{Levelled, levelled};

    ghost Value = { Levelled };

    ghost view = { λ contexts. levelled contexts.chart.now };

    ghost invariant = { λ contexts. IsTextChart contexts.chart.now };
}

impl<'a> ChartContexts<'a> {
    /// Those that this chart tells.
    pub fn of(chart: &'a TextChart<'a>) -> ChartContexts<'a>
        requires { IsTextChart chart.now }
        ensures { result ≡ levelled chart.now }
    {
        ChartContexts { chart }
    }
}

impl<'a> Contexts for ChartContexts<'a> {
    ghost use Rattle.ux_chart_contexts.specs.Telling.{AsksChart, tells_in};

    ghost asks = { AsksChart };

    ghost applies = { tells_in };

    fn closers(&self, graph: u32, edge: &Edge, at: usize) -> &[u32] {
        self.chart.closers(graph, edge, at)
    }

    fn enters(&self, graph: u32, at: usize) -> bool {
        let chart = self.chart;
        if !is_asked_of(chart, graph, at) {
            // No edge calls a graph that isn't there.
            return true;
        }
        derives_some(chart, graph, at)
    }
}

/// Whether the net has the graph, and the text the position.
fn is_asked_of(chart: &TextChart, graph: u32, at: usize) -> bool
    ensures { IsTrue result ↔ IsAskedOf (chart_setting chart.now) graph at }
{
    let text = &chart.basis.text;
    1 <= graph && graph <= text.net.graphs() && at <= text.text.len()
}

/// Whether the graph derives something from the position.
pub fn derives_some(chart: &TextChart, graph: u32, at: usize) -> bool
    requires chart { IsTextChart chart.now }
    requires asked { IsAskedOf (chart_setting chart.now) graph at }
    ensures { IsTrue result ↔ DerivesSome (chart_setting chart.now) graph at }
{
    !chart.ends(graph, at).is_empty()
}
