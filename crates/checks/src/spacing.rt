// 8 of one axis: every later gap beside the first one. For every input.
#![tactic(auto, using(answer::proofs::Loops::begin), unfolding(crate::specs::Numbers::apart, crate::specs::Numbers::gap_fault, crate::specs::Numbers::uniform_fault, crate::specs::Numbers::default_tolerance, crate::specs::Nodes::gap))]

ghost use Rattle.std.specs.Prelude.{◌≡◌, ◌+◌, ◌<◌, ◌≤◌, length};
ghost use Rattle.answer.specs.Rows.{said};
ghost use Rattle.checks.specs.Numbers.{apart, gap_fault, uniform_fault, default_tolerance, default_fault};

use crate::ranges;
use answer::{Refusal, Row};

// How far two gaps differ.
fn gaps_apart(spacing: f64, step: f64) -> f64
    ensures { result ≡ apart spacing step }
{
    if spacing > step {
        spacing - step
    } else {
        step - spacing
    }
}

// 8 of one interval.
fn gap_fault(axis: usize, grid: &[f64], tolerance: f64, i: usize) -> Result<(), Refusal>
    requires { (1 ≤ i) × (i + 1 < length grid.now) }
    ensures { said result ≡ gap_fault axis grid.now tolerance i }
{
    let step = grid[1] - grid[0];
    let spacing = grid[i + 1] - grid[i];
    Row::Uniform.refuse_if(gaps_apart(spacing, step) > tolerance, axis, i)
}

// 8 of the first interval that differs from the first gap by more than the tolerance; fewer than two nodes have no gap.
pub fn uniform_fault(axis: usize, grid: &[f64], tolerance: f64) -> Result<(), Refusal>
    ensures { said result ≡ uniform_fault axis grid.now tolerance }
{
    for i in 1..grid.len().saturating_sub(1) {
        gap_fault(axis, grid, tolerance, i)?;
    }
    Ok(())
}

// The default tolerance: the first gap times 2^-42. A gap that is not there is a NaN.
pub fn default_tolerance(grid: &[f64]) -> f64
    ensures { result ≡ default_tolerance grid.now }
{
    (ranges::at_or_nan(grid, 1) - ranges::at_or_nan(grid, 0)) * 2.273736754432320594787597656250e-13
}

// 8 of one axis by the default tolerance.
pub(crate) fn default_fault(axis: usize, grid: &[f64]) -> Result<(), Refusal>
    ensures { said result ≡ default_fault axis grid.now }
{
    uniform_fault(axis, grid, default_tolerance(grid))
}
