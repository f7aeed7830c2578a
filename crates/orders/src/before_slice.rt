// The orders of checks that stand before a slice: one function each, line by line as specs/Orders.antt lists it, for every input. What
// follows them judges the one reading and the room.
#![tactic(auto, using(answer::proofs::Checks::hands, answer::proofs::Checks::stops, answer::proofs::Checks::goes_on), unfolding(crate::specs::Orders::nearest_front, crate::specs::Orders::step_front, crate::specs::Orders::linear_front, checks::specs::Numbers::no_axis_fault, checks::specs::Numbers::not_first_fault))]

ghost use Rattle.std.specs.Prelude.{◌≡◌};
ghost use Rattle.answer.specs.Rows.{said};
ghost use Rattle.checks.specs.Numbers.{no_axis_fault, not_first_fault};
ghost use Rattle.orders.specs.Orders.{nearest_front, step_front, linear_front, linear_uniform_front};

use answer::{Refusal, Row};
use checks::{lent, lists, shapes, table, values};
use layout::Shape;

// 16: no second axis, or no such axis.
fn no_axis_fault(axes: usize, axis: usize) -> Result<(), Refusal>
    ensures { said result ≡ no_axis_fault axes axis }
{
    Row::Slice.refuse_if((axes <= 1) | !(axis < axes), 0, 0)
}

// 16 of the two linears: no second axis, or not the first.
fn not_first_fault(axes: usize, axis: usize) -> Result<(), Refusal>
    ensures { said result ≡ not_first_fault axes axis }
{
    Row::Slice.refuse_if((axes <= 1) | !(axis == 0), 0, 0)
}

// 1, 2, 3; 16; 4, 5, 6; 7.
pub fn nearest_front(
    shape: Shape,
    nodes: &[f64],
    values: &[f64],
    axis: usize,
) -> Result<(), Refusal>
    ensures { said result ≡ nearest_front shape nodes.now values.now axis }
{
    // what is lent, the axis, what is stored
    shapes::frame_fault(shape, nodes.len(), values.len())?;
    no_axis_fault(shape.axes, axis)?;
    table::axes_fault(shape, nodes)?;
    values::values_fault(values)
}

// The same with 3 and 9 of the directions.
pub fn step_front(
    shape: Shape,
    nodes: &[f64],
    values: &[f64],
    directions: &[u8],
    axis: usize,
) -> Result<(), Refusal>
    ensures { said result ≡ step_front shape nodes.now values.now directions.now axis }
{
    shapes::frame_fault(shape, nodes.len(), values.len())?;
    lent::length_fault(3, shape.axes, directions.len())?;
    no_axis_fault(shape.axes, axis)?;
    table::axes_fault(shape, nodes)?;
    values::values_fault(values)?;
    lists::directions_fault(directions)
}

// 1, 2, 3; 16 of the two linears; 4, 5, 6; 7.
pub fn linear_front(shape: Shape, nodes: &[f64], values: &[f64], axis: usize) -> Result<(), Refusal>
    ensures { said result ≡ linear_front shape nodes.now values.now axis }
{
    shapes::frame_fault(shape, nodes.len(), values.len())?;
    not_first_fault(shape.axes, axis)?;
    table::axes_fault(shape, nodes)?;
    values::values_fault(values)
}

// The same with 8 of all axes.
#[tactic(auto, using(answer::proofs::Checks::hands, answer::proofs::Checks::stops, answer::proofs::Checks::goes_on), unfolding(crate::specs::Orders::linear_uniform_front))]
pub fn linear_uniform_front(
    shape: Shape,
    nodes: &[f64],
    values: &[f64],
    axis: usize,
) -> Result<(), Refusal>
    ensures { said result ≡ linear_uniform_front shape nodes.now values.now axis }
{
    linear_front(shape, nodes, values, axis)?;
    table::axes_uniform_fault(shape, nodes)
}
