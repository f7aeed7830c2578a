// The checks of the primitives. An order of checks gives a fault for every input: the first that is found.
#![tactic(auto, using(answer::proofs::Checks::hands, answer::proofs::Checks::stops, answer::proofs::Checks::goes_on), unfolding(crate::specs::Calls::axis_reading_fault, crate::specs::Calls::directed_fault, crate::specs::Calls::lower_fault, crate::specs::Calls::exact_fault, crate::specs::Calls::uniform_read_fault, crate::specs::Calls::spacing_fault, crate::specs::Calls::tolerance_of, checks::specs::Numbers::lent_step_fault, checks::specs::Numbers::tolerance_fault))]

ghost use Rattle.std.specs.Prelude.{◌≡◌, not, ◌||◌};
ghost use Rattle.std.specs.Float.Ieee.Scale.{finite};
ghost use Rattle.answer.specs.Rows.{said};
ghost use Rattle.answer.specs.Faults.{refusal, when};
ghost use Rattle.checks.specs.Numbers.{lent_step_fault, tolerance_fault, result_fault};
ghost use Rattle.utils.specs.Calls.{axis_reading_fault, directed_fault, lower_fault, exact_fault, uniform_read_fault};
ghost use Rattle.utils.specs.Calls.{location_fraction, lent_fault, tolerance_of, spacing_fault};

use answer::{Refusal, Row};
use checks::{counts, lent, nodes, numbers, spacing};
use rust::AxisLocation;

// 2, 4, 5, 6, then 10.
pub(crate) fn axis_reading_fault(grid: &[f64], point: f64) -> Result<(), Refusal>
    ensures { said result ≡ axis_reading_fault grid.now point }
{
    nodes::axis_fault(grid)?;
    numbers::reading_fault(0, point)
}

// The fraction of a location, +0.0 on a node.
fn location_fraction(location: AxisLocation) -> f64
    ensures { result ≡ location_fraction location }
{
    match location {
        AxisLocation::Exact(_) => 0.0,
        AxisLocation::Between { frac, .. } => frac,
    }
}

// 12 of a location's fraction: the last check of `locate_axis`.
pub(crate) fn fraction_fault(location: AxisLocation) -> Result<(), Refusal>
    ensures { said result ≡ result_fault 0 (location_fraction location) }
{
    numbers::result_fault(0, location_fraction(location))
}

// 2, 4, 5, 6, then 9, then 10.
pub(crate) fn directed_fault(direction: u8, grid: &[f64], point: f64) -> Result<(), Refusal>
    ensures { said result ≡ directed_fault direction grid.now point }
{
    nodes::axis_fault(grid)?;
    lent::direction_fault(0, direction)?;
    numbers::reading_fault(0, point)
}

// 2, place 1: a lent lower index that is not below the count less 1.
fn lower_fault(grid: &[f64], lower: usize) -> Result<(), Refusal>
    ensures { said result ≡ lower_fault grid.now lower }
{
    Row::Count.refuse_if(lower >= grid.len().saturating_sub(1), 0, 1)
}

// 2, 4, 5, 6, then 2 of the lower index, then 10.
pub(crate) fn exact_fault(grid: &[f64], lower: usize, point: f64) -> Result<(), Refusal>
    ensures { said result ≡ exact_fault grid.now lower point }
{
    nodes::axis_fault(grid)?;
    lower_fault(grid, lower)?;
    numbers::reading_fault(0, point)
}

// 8: a lent number that is not finite or is out of its bound.
fn bound_fault(x: f64, out: bool) -> Result<(), Refusal>
    ensures { said result ≡ when (not (finite x) || out) (refusal 8 0 0) }
{
    Row::Uniform.refuse_if(!binary64::is_finite(x) || out, 0, 0)
}

// 8: a lent step not finite or not above 0.
fn lent_step_fault(step: f64) -> Result<(), Refusal>
    ensures { said result ≡ lent_step_fault step }
{
    bound_fault(step, !(0.0 < step))
}

// 2, then 4 of the first node, then 8 of the step, then 10.
pub(crate) fn uniform_read_fault(first: f64, step: f64, n: usize, point: f64) -> Result<(), Refusal>
    ensures { said result ≡ uniform_read_fault first step n point }
{
    counts::count_fault(0, n)?;
    numbers::finite_fault(0, 0, first)?;
    lent_step_fault(step)?;
    numbers::reading_fault(0, point)
}

// The tolerance that is lent, or the default one of an axis.
fn tolerance_of(grid: &[f64], tolerance: Option<f64>) -> f64
    ensures { result ≡ tolerance_of grid.now tolerance }
{
    tolerance.unwrap_or_else(|| spacing::default_tolerance(grid))
}

// 8: a lent tolerance not finite or below 0.
fn tolerance_fault(tolerance: f64) -> Result<(), Refusal>
    ensures { said result ≡ tolerance_fault tolerance }
{
    bound_fault(tolerance, tolerance < 0.0)
}

// 8 of a tolerance, if one is lent.
#[tactic(auto, unfolding(answer::specs::Rows::said))]
fn lent_fault(tolerance: Option<f64>) -> Result<(), Refusal>
    ensures { said result ≡ lent_fault tolerance }
{
    match tolerance {
        Some(lent) => tolerance_fault(lent),
        None => Ok(()),
    }
}

// 2, 4, 5, 6, then 8 of the tolerance, then 8 of the gaps.
pub(crate) fn spacing_fault(grid: &[f64], tolerance: Option<f64>) -> Result<(), Refusal>
    ensures { said result ≡ spacing_fault grid.now tolerance }
{
    nodes::axis_fault(grid)?;
    lent_fault(tolerance)?;
    let bound = tolerance_of(grid, tolerance);
    spacing::uniform_fault(0, grid, bound)
}
