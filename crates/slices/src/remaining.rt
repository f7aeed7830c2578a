// What is left of a table without one axis, the nodes of that axis, and the checks of its reading and of the room.
ghost use Rattle.std.specs.Prelude.{◌≡◌, cond, suc, ◌+◌, ◌<◌, ◌≤◌, ltb, length, drop, get_or};
ghost use Rattle.answer.specs.Rows.{said};
ghost use Rattle.layout.specs.Shape.{counts_of, size, total};
ghost use Rattle.checks.specs.Scaffolding.{Few};
ghost use Rattle.layout.specs.Layout.{axis_of, without};
ghost use Rattle.slices.specs.Slices.{shape_without};
ghost use Rattle.slices.specs.Scaffolding.{AxisOf, Ready};
ghost use Rattle.orders.specs.Orders.{point_fault};

use answer::Refusal;
use checks::{lent, numbers, ranges};
use layout::Shape;

// The number that axis a of what is left has in the whole.
fn axis_past(axis: usize, a: usize) -> usize
    requires { a < 4 }
    ensures { result ≡ cond (ltb a axis) a (a + 1) }
{
    if a < axis { a } else { a + 1 }
}

// A count of what is left, 0 past the last.
fn count_without(shape: Shape, axis: usize, a: usize) -> usize
    requires axes_bound { shape.axes ≤ 4 }
    requires a_bound { a < 4 }
    ensures { result ≡ get_or (without axis (counts_of shape)) a 0 }
{
    let counts = shape.counts;
    let b = axis_past(axis, a);
    if b < shape.axes { counts[b] } else { 0 }
}

// The shape that is left. No copy of a run of counts: a board links no `memmove`.
pub(crate) fn shape_without(shape: Shape, axis: usize) -> Shape
    requires { AxisOf shape axis }
    ensures { result ≡ shape_without shape axis }
{
    let a = count_without(shape, axis, 0);
    let b = count_without(shape, axis, 1);
    let c = count_without(shape, axis, 2);
    let d = count_without(shape, axis, 3);
    Shape {
        axes: shape.axes - 1,
        counts: [a, b, c, d],
    }
}

// The nodes of an axis.
pub(crate) fn axis_nodes(shape: Shape, nodes: &[f64], axis: usize) -> &[f64]
    requires there { AxisOf shape axis }
    requires flat { length nodes.now ≡ total (counts_of shape) }
    ensures { result.now ≡ axis_of shape nodes.now axis }
{
    let start: usize = shape.counts[..axis].iter().sum();
    &nodes[start..start + shape.counts[axis]]
}

// How many values the axes after one have.
pub(crate) fn stride(shape: Shape, axis: usize) -> usize
    requires within { axis < shape.axes }
    requires few { Few shape }
    ensures { result ≡ size (drop (suc axis) (counts_of shape)) }
{
    shape.counts[axis + 1..shape.axes].iter().product()
}

// 10, 11 of one reading, then 15.
pub(crate) fn point_fault(
    shape: Shape,
    nodes: &[f64],
    values: &[f64],
    axis: usize,
    point: f64,
    room: usize,
) -> Result<(), Refusal>
    requires { Ready shape nodes.now values.now axis }
    ensures { said result ≡ point_fault shape nodes.now axis point room }
{
    numbers::reading_fault(axis, point)?;
    let grid = axis_nodes(shape, nodes, axis);
    ranges::range_fault(axis, grid, point)?;
    lent::room_fault(1, values.len() / grid.len(), room)
}
