// The node that a rule picks: Step's, by the Rust's own expressions, or Nearest's.
#![tactic(auto, using(crate::proofs::cells::Cells::cell_inside), unfolding(crate::specs::Picks::nearest_index, crate::specs::Scaffolding::rust_step, crate::specs::Scaffolding::pick_found))]

ghost use Rattle.std.specs.Prelude.{◌≡◌, ◌≤◌, min, length};
ghost use Rattle.axis.specs.Cells.{lower_index};
ghost use Rattle.rust.specs.Utils.{lower_by, upper_by};
ghost use Rattle.axis.specs.Picks.{nearest_index};
ghost use Rattle.axis.specs.Scaffolding.{code_of, pick_found};

use crate::cells;

// What picks a node: one of Step's two directions, or Nearest.
#[derive(Clone, Copy, PartialEq, Eq)]
pub enum Pick {
    Lower,
    Upper,
    Nearest,
}

impl Pick {
    // Step's pick by its direction: 0 is Lower, anything else Upper.
    pub fn toward(direction: u8) -> Pick
        ensures { code_of result ≡ min direction 1 }
    {
        if direction == 0 {
            Pick::Lower
        } else {
            Pick::Upper
        }
    }

    // A pick by its number: 0 is Lower, 1 Upper, anything else Nearest.
    fn numbered(pick: u8) -> Pick
        ensures { code_of result ≡ min pick 2 }
    {
        match pick {
            0 => Pick::Lower,
            1 => Pick::Upper,
            _ => Pick::Nearest,
        }
    }
}

// Step's lower node: a reading on a node lies in the cell below it, so the node is one further up.
fn lower_step(grid: &[f64], point: f64) -> usize
    requires { 2 ≤ length grid.now }
    ensures { result ≡ lower_by grid.now (lower_index grid.now point) point }
{
    let n = grid.len();
    let lower = cells::lower_index(grid, point);
    if point == grid[n - 1] {
        n - 1
    } else if point == grid[lower + 1] {
        lower + 1
    } else {
        lower
    }
}

// Step's upper node.
fn upper_step(grid: &[f64], point: f64) -> usize
    requires { 2 ≤ length grid.now }
    ensures { result ≡ upper_by grid.now (lower_index grid.now point) point }
{
    if point == grid[0] {
        0
    } else {
        cells::lower_index(grid, point) + 1
    }
}

// Nearest's: the lower node where the reading is less far from it, as rounded, else the upper.
fn nearest_index(grid: &[f64], point: f64) -> usize
    requires { 2 ≤ length grid.now }
    ensures { result ≡ nearest_index grid.now point }
{
    let lower = cells::lower_index(grid, point);
    if point - grid[lower] < grid[lower + 1] - point {
        lower
    } else {
        lower + 1
    }
}

// The index that a pick gives; 0 on fewer than two nodes, which have no cell.
pub fn index_by(pick: Pick, grid: &[f64], point: f64) -> usize
    ensures { result ≡ pick_found (code_of pick) grid.now point }
{
    if grid.len() < 2 {
        return 0;
    }
    match pick {
        Pick::Lower => lower_step(grid, point),
        Pick::Upper => upper_step(grid, point),
        Pick::Nearest => nearest_index(grid, point),
    }
}

// The same by a pick's number, as a board lends it: 0 is Lower, 1 Upper, anything else Nearest.
pub fn pick_index(pick: u8, grid: &[f64], point: f64) -> usize
    ensures { result ≡ pick_found pick grid.now point }
{
    index_by(Pick::numbered(pick), grid, point)
}
