// The seven axis primitives, in the order of the Rust's strategy/utils.rs.
ghost use Rattle.std.specs.Prelude.{◌≡◌};
ghost use Rattle.utils.specs.Calls.{locate_lower_index, exact_index, locate_axis, locate_step_index};
ghost use Rattle.utils.specs.Calls.{locate_lower_index_uniform, validate_uniform_grid, validate_uniform_grid_epsilon};
ghost use Rattle.board.specs.Plain.{plain_exact, plain_location, tolerance_by};

use crate::plain;
use crate::plain::{PlainExact, PlainLocation};
use answer::Answer;
use utils::IndexAnswer;

// The lower node of a reading's cell.
pub fn ng_locate_lower_index(grid: &[f64], point: f64) -> IndexAnswer
    ensures { result ≡ locate_lower_index grid.now point }
{
    utils::locate_lower_index(grid, point)
}

// Where a reading lies for Linear: on a node, or at a fraction of a cell.
pub fn ng_locate_axis(grid: &[f64], point: f64) -> PlainLocation
    ensures { result ≡ plain_location (locate_axis grid.now point) }
{
    PlainLocation::from(utils::locate_axis(grid, point))
}

// The node that Step takes: at or below a reading by the direction 0, at or above it by 1.
pub fn ng_locate_step_index(direction: u8, grid: &[f64], point: f64) -> IndexAnswer
    ensures { result ≡ locate_step_index direction grid.now point }
{
    utils::locate_step_index(direction, grid, point)
}

// The node of a cell that equals a reading, if one does.
pub fn ng_exact_index(grid: &[f64], lower: usize, point: f64) -> PlainExact
    ensures { result ≡ plain_exact (exact_index grid.now lower point) }
{
    PlainExact::from(utils::exact_index(grid, lower, point))
}

// The lower node of a reading's cell on a uniform axis, by its first node and its step.
pub fn ng_locate_lower_index_uniform(first: f64, step: f64, n: usize, point: f64) -> IndexAnswer
    ensures { result ≡ locate_lower_index_uniform first step n point }
{
    utils::locate_lower_index_uniform(first, step, n, point)
}

// Whether an axis is uniform within a lent tolerance.
pub fn ng_validate_uniform_grid(grid: &[f64], tolerance: f64) -> Answer
    ensures { result ≡ validate_uniform_grid grid.now tolerance }
{
    utils::validate_uniform_grid(grid, tolerance)
}

// Whether an axis is uniform within a lent tolerance, or, where lent is 0, the default one.
pub fn ng_validate_uniform_grid_epsilon(grid: &[f64], lent: u32, tolerance: f64) -> Answer
    ensures { result ≡ validate_uniform_grid_epsilon grid.now (tolerance_by lent tolerance) }
{
    utils::validate_uniform_grid_epsilon(grid, plain::tolerance_by(lent, tolerance))
}
