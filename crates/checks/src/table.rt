// The checks of all axes of a table and of the range of its readings, for every input.
#![tactic(auto, unfolding(crate::specs::Numbers::axes_fault, crate::specs::Numbers::axes_uniform_fault, crate::specs::Numbers::ranges_fault))]

ghost use Rattle.std.specs.Prelude.{◌≡◌, ℕ, List, Float};
ghost use Rattle.answer.specs.Faults.{Fault};
ghost use Rattle.answer.specs.Rows.{said};
ghost use Rattle.layout.specs.Shape.{counts_of};
ghost use Rattle.checks.specs.Numbers.{axes_fault, axes_uniform_fault, ranges_fault};
ghost use Rattle.checks.specs.Scaffolding.{Says, each_axis};

use crate::{nodes, ranges, spacing};
use answer::Refusal;
use layout::Shape;

// Judges each axis of a table by its number and its nodes, one after the other. Nodes that are not there are not looked at.
fn each_axis<F: Fn(usize, &[f64]) -> Result<(), Refusal>>(
    shape: Shape,
    nodes: &[f64],
    row: F,
) -> Result<(), Refusal>
    requires { F.IsAlwaysCallable row }
    ensures { (fault : ℕ → List Float → Fault) → Says (F.post row) fault → said result ≡ each_axis fault (counts_of shape) nodes.now }
{
    let counts = &shape.counts[..shape.axes.min(4)];
    let mut rest = nodes;
    for (a, count) in counts.iter().enumerate() {
        let (grid, others) = rest.split_at((*count).min(rest.len()));
        row(a, grid)?;
        rest = others;
    }
    Ok(())
}

// 4, 5, 6 of all axes.
pub fn axes_fault(shape: Shape, nodes: &[f64]) -> Result<(), Refusal>
    ensures { said result ≡ axes_fault (counts_of shape) nodes.now }
{
    each_axis(shape, nodes, nodes::nodes_fault)
}

// 8 of all axes, by the default tolerance.
pub fn axes_uniform_fault(shape: Shape, nodes: &[f64]) -> Result<(), Refusal>
    ensures { said result ≡ axes_uniform_fault (counts_of shape) nodes.now }
{
    each_axis(shape, nodes, spacing::default_fault)
}

// 11 of all axes.
pub fn ranges_fault(shape: Shape, nodes: &[f64], readings: &[f64]) -> Result<(), Refusal>
    ensures { said result ≡ ranges_fault (counts_of shape) nodes.now readings.now }
{
    each_axis(shape, nodes, |a, grid| {
        ranges::range_fault(a, grid, ranges::at_or_nan(readings, a))
    })
}
