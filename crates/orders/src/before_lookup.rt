// The orders of checks that stand before a lookup: one function each, line by line as specs/Orders.antt lists it, for every input.
#![tactic(auto, using(answer::proofs::Checks::hands, answer::proofs::Checks::stops, answer::proofs::Checks::goes_on), unfolding(crate::specs::Orders::lookup_fault, crate::specs::Orders::step_fault, crate::specs::Orders::linear_uniform_fault))]

ghost use Rattle.std.specs.Prelude.{◌≡◌};
ghost use Rattle.answer.specs.Rows.{said};
ghost use Rattle.orders.specs.Orders.{lookup_fault, step_fault, linear_uniform_fault};

use answer::Refusal;
use checks::{lent, lists, shapes, table, values};
use layout::Shape;

// 1, 2, 3; 4, 5, 6; 7; 10; 11.
pub fn lookup_fault(
    shape: Shape,
    nodes: &[f64],
    values: &[f64],
    point: &[f64],
) -> Result<(), Refusal>
    ensures { said result ≡ lookup_fault shape nodes.now values.now point.now }
{
    // what is lent, what is stored, what is read
    shapes::frame_fault(shape, nodes.len(), values.len())?;
    lent::length_fault(2, shape.axes, point.len())?;
    table::axes_fault(shape, nodes)?;
    values::values_fault(values)?;
    lists::readings_fault(point)?;
    table::ranges_fault(shape, nodes, point)
}

// The same with 3 and 9 of the directions.
pub fn step_fault(
    shape: Shape,
    nodes: &[f64],
    values: &[f64],
    point: &[f64],
    directions: &[u8],
) -> Result<(), Refusal>
    ensures { said result ≡ step_fault shape nodes.now values.now point.now directions.now }
{
    // the same, with the length of the directions after that of the reading, and the directions after the values
    shapes::frame_fault(shape, nodes.len(), values.len())?;
    lent::length_fault(2, shape.axes, point.len())?;
    lent::length_fault(3, shape.axes, directions.len())?;
    table::axes_fault(shape, nodes)?;
    values::values_fault(values)?;
    lists::directions_fault(directions)?;
    lists::readings_fault(point)?;
    table::ranges_fault(shape, nodes, point)
}

// The same with 8 of all axes. Never inlined: its frame would stay on a board's stack under the blend's.
#[inline(never)]
pub fn linear_uniform_fault(
    shape: Shape,
    nodes: &[f64],
    values: &[f64],
    point: &[f64],
) -> Result<(), Refusal>
    ensures { said result ≡ linear_uniform_fault shape nodes.now values.now point.now }
{
    // the same, with the spacing of the axes after the values
    shapes::frame_fault(shape, nodes.len(), values.len())?;
    lent::length_fault(2, shape.axes, point.len())?;
    table::axes_fault(shape, nodes)?;
    values::values_fault(values)?;
    table::axes_uniform_fault(shape, nodes)?;
    lists::readings_fault(point)?;
    table::ranges_fault(shape, nodes, point)
}
