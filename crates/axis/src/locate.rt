// The location of a reading: the exact node, or the cell with a fraction. By Linear's rule or by LinearUniform's.
#![tactic(auto, using(crate::proofs::cells::Cells::cell_inside, crate::proofs::Located::uniform_index_fits), unfolding(crate::specs::Locations::fraction, crate::specs::Locations::axis_location, crate::specs::Locations::uniform_location, crate::specs::Scaffolding::location_found, checks::specs::Nodes::gap, crate::specs::Exact::exact_node))]

ghost use Rattle.std.specs.Prelude.{◌≡◌, ◌≤◌, length};
ghost use Rattle.axis.specs.Locations.{axis_location, location_index, uniform_location};
ghost use Rattle.axis.specs.Scaffolding.{location_found};

use crate::{cells, exact, uniform};
use rust::AxisLocation;

// The location by Linear's rule.
fn axis_location(grid: &[f64], point: f64) -> AxisLocation
    requires { 2 ≤ length grid.now }
    ensures { result ≡ axis_location grid.now point }
{
    let lower = cells::lower_index(grid, point);
    match exact::exact_node(grid, lower, point) {
        Some(node) => AxisLocation::Exact(node),
        None => {
            let frac = (point - grid[lower]) / (grid[lower + 1] - grid[lower]);
            AxisLocation::Between { lower, frac }
        }
    }
}

// LinearUniform's: no exact shortcut, and the first gap for every cell.
fn uniform_location(grid: &[f64], point: f64) -> AxisLocation
    requires { 2 ≤ length grid.now }
    ensures { result ≡ uniform_location grid.now point }
{
    let step = grid[1] - grid[0];
    let lower = uniform::uniform_index(grid[0], step, grid.len(), point);
    let frac = (point - grid[lower]) / step;
    AxisLocation::Between { lower, frac }
}

// The location by either rule; 0 and +0.0 on fewer than two nodes, which have no cell.
pub fn location_by(uniform: bool, grid: &[f64], point: f64) -> AxisLocation
    ensures { result ≡ location_found uniform grid.now point }
{
    if grid.len() < 2 {
        return AxisLocation::Between {
            lower: 0,
            frac: 0.0,
        };
    }
    if uniform {
        uniform_location(grid, point)
    } else {
        axis_location(grid, point)
    }
}

// The node of an exact axis, the lower one of any other.
pub fn lower_node(location: AxisLocation) -> usize
    ensures { result ≡ location_index location }
{
    match location {
        AxisLocation::Exact(node) => node,
        AxisLocation::Between { lower, .. } => lower,
    }
}
