// The four slices: one axis is removed at a reading, and the values of the other axes are written.
ghost use Rattle.std.specs.Prelude.{◌≡◌, length};
ghost use Rattle.slices.specs.LinearSlices.{linear_slice, linear_sliced, linear_uniform_slice, linear_uniform_sliced};
ghost use Rattle.slices.specs.Slices.{nearest_slice, nearest_sliced, step_slice, step_sliced};

use board::cuts;
use layout::Shape;
use slices::SliceAnswer;

// The slice of a table by Linear, on its first axis.
#[unsafe(no_mangle)]
pub extern "C" fn ng_slice_linear(
    shape: Shape,
    nodes: &[f64],
    values: &[f64],
    axis: usize,
    point: f64,
    out: &mut [f64],
) -> SliceAnswer
    ensures value { result ≡ linear_slice shape nodes.now values.now axis point
        (length out.old) }
    ensures out_after { out.new ≡ linear_sliced shape nodes.now values.now axis point
        out.old }
{
    cuts::ng_slice_linear(shape, nodes, values, axis, point, out)
}

// The slice of a table by LinearUniform, on its first axis.
#[unsafe(no_mangle)]
pub extern "C" fn ng_slice_linear_uniform(
    shape: Shape,
    nodes: &[f64],
    values: &[f64],
    axis: usize,
    point: f64,
    out: &mut [f64],
) -> SliceAnswer
    ensures value { result ≡ linear_uniform_slice shape nodes.now values.now axis point
        (length out.old) }
    ensures out_after { out.new ≡ linear_uniform_sliced shape nodes.now values.now axis point
        out.old }
{
    cuts::ng_slice_linear_uniform(shape, nodes, values, axis, point, out)
}

// The slice of a table by Nearest, on any axis.
#[unsafe(no_mangle)]
pub extern "C" fn ng_slice_nearest(
    shape: Shape,
    nodes: &[f64],
    values: &[f64],
    axis: usize,
    point: f64,
    out: &mut [f64],
) -> SliceAnswer
    ensures value { result ≡ nearest_slice shape nodes.now values.now axis point
        (length out.old) }
    ensures out_after { out.new ≡ nearest_sliced shape nodes.now values.now axis point
        out.old }
{
    cuts::ng_slice_nearest(shape, nodes, values, axis, point, out)
}

// The slice of a table by Step, on any axis, with the directions of all axes.
#[unsafe(no_mangle)]
pub extern "C" fn ng_slice_step(
    shape: Shape,
    nodes: &[f64],
    values: &[f64],
    directions: &[u8],
    axis: usize,
    point: f64,
    out: &mut [f64],
) -> SliceAnswer
    ensures value { result ≡ step_slice shape nodes.now values.now directions.now axis point
        (length out.old) }
    ensures out_after { out.new ≡ step_sliced shape nodes.now values.now directions.now axis point
        out.old }
{
    cuts::ng_slice_step(shape, nodes, values, directions, axis, point, out)
}
