// A slice of a judged table: the one reading and the room are judged, then the values are written.
ghost use Rattle.std.specs.Prelude.{◌≡◌, ◌++◌, length, drop};
ghost use Rattle.answer.specs.Rows.{said};
ghost use Rattle.layout.specs.Shape.{counts_of, size};
ghost use Rattle.layout.specs.Layout.{without};
ghost use Rattle.axis.specs.Scaffolding.{code_of, location_by};
ghost use Rattle.orders.specs.Orders.{point_fault};
ghost use Rattle.slices.specs.LinearSlices.{linear_values, linear_rest};
ghost use Rattle.slices.specs.Scaffolding.{Ready, Taken, JudgedOutput, Results, pick_slice};

use crate::{remaining, written};
use answer::Refusal;
use axis::picks::Pick;
use axis::{locate, picks};
use layout::Shape;
use rust::AxisLocation;

// The slice at a pick's node on one axis.
fn pick_slice(
    shape: Shape,
    nodes: &[f64],
    values: &[f64],
    pick: Pick,
    axis: usize,
    point: f64,
    out: &mut [f64],
)
    requires ready { Ready shape nodes.now values.now axis }
    requires taken { Taken shape axis point (length out.old) }
    ensures { out.new ≡ pick_slice (code_of pick) shape nodes.now values.now axis point
        ++ drop (size (without axis (counts_of shape))) out.old }
{
    let grid = remaining::axis_nodes(shape, nodes, axis);
    let i = picks::index_by(pick, grid, point);
    let inner = remaining::stride(shape, axis);
    written::fill(values, grid.len(), inner, i, out);
}

// Judges the one reading and the room, and writes.
pub(crate) fn pick_judged(
    shape: Shape,
    nodes: &[f64],
    values: &[f64],
    pick: Pick,
    axis: usize,
    point: f64,
    out: &mut [f64],
) -> Result<(), Refusal>
    requires { Ready shape nodes.now values.now axis }
    ensures { JudgedOutput (point_fault shape nodes.now axis point (length out.old))
        (pick_slice (code_of pick) shape nodes.now values.now axis point)
        out.old (said result) out.new }
{
    remaining::point_fault(shape, nodes, values, axis, point, out.len())?;
    pick_slice(shape, nodes, values, pick, axis, point, out);
    Ok(())
}

// The values along the first axis, where the reading is judged: the run at an exact node, or two runs blended.
fn along_first(
    uniform: bool,
    shape: Shape,
    nodes: &[f64],
    values: &[f64],
    point: f64,
    out: &mut [f64],
) -> Result<(), Refusal>
    requires ready { Ready shape nodes.now values.now 0 }
    requires taken { Taken shape 0 point (length out.old) }
    ensures { Results (linear_values (location_by uniform) shape nodes.now values.now point)
        out.old (said result) out.new }
{
    let grid = remaining::axis_nodes(shape, nodes, 0);
    let n = grid.len();
    let rest = values.len() / n;
    let location = locate::location_by(uniform, grid, point);
    let node = locate::lower_node(location);
    let AxisLocation::Between { lower, frac } = location else {
        written::fill(values, n, rest, node, out);
        return Ok(());
    };
    written::blend_runs(values, rest, lower, frac, out)
}

// Judges the one reading and the room, then the values, and writes.
pub(crate) fn linear_judged(
    uniform: bool,
    shape: Shape,
    nodes: &[f64],
    values: &[f64],
    point: f64,
    out: &mut [f64],
) -> Result<(), Refusal>
    requires { Ready shape nodes.now values.now 0 }
    ensures { JudgedOutput (linear_rest (location_by uniform) shape nodes.now values.now 0 point (length out.old))
        (linear_values (location_by uniform) shape nodes.now values.now point)
        out.old (said result) out.new }
{
    remaining::point_fault(shape, nodes, values, 0, point, out.len())?;
    along_first(uniform, shape, nodes, values, point, out)
}
