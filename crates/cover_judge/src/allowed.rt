//! What a rule lets a sketch choose.
ghost use Rattle.std.specs.Prelude.{◌≡◌, ◌↔◌, IsTrue};
ghost use Rattle.rowless_sketches.specs.ProgramSketches.{mode_in};
ghost use Rattle.tree_laws.specs.CoverTrees.{AllowsOrder, AllowsSource};

use candidate_executions::Event;
use rowless_sketches::RowlessSketch;
use tree_laws::Rule;

/// Whether the rule lets a read take a source.
pub(crate) fn allows_source(rule: Rule, sketch: &RowlessSketch, read: Event) -> bool
    ensures { IsTrue result ↔ AllowsSource rule sketch.now.program (mode_in sketch.now) sketch.now.chosen read }
{
    match rule {
        Rule::Whole => sketch.is_whole(),
        Rule::Early => sketch.is_settled(read),
    }
}

/// Whether the rule lets two writes take an order.
pub(crate) fn allows_order(rule: Rule, sketch: &RowlessSketch) -> bool
    ensures { IsTrue result ↔ AllowsOrder rule sketch.now.program (mode_in sketch.now) sketch.now.chosen }
{
    match rule {
        Rule::Whole => sketch.is_whole(),
        Rule::Early => true,
    }
}
