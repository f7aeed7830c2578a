// The four lookups.
ghost use Rattle.std.specs.Prelude.{◌≡◌};
ghost use Rattle.ninterp.specs.Linears.{linear_answer, linear_uniform_answer};
ghost use Rattle.ninterp.specs.Tables.{nearest_answer, step_answer};

use answer::Answer;
use layout::Shape;
use ninterp::interpolator::n;

// The lookup by Linear: the blend of the corners of the reading's cell.
pub fn ng_interpolate_linear(shape: Shape, nodes: &[f64], values: &[f64], point: &[f64]) -> Answer
    ensures { result ≡ linear_answer shape nodes.now values.now point.now }
{
    n::linear::interpolate(shape, nodes, values, point)
}

// The lookup by LinearUniform: the same on axes of one step.
pub fn ng_interpolate_linear_uniform(
    shape: Shape,
    nodes: &[f64],
    values: &[f64],
    point: &[f64],
) -> Answer
    ensures { result ≡ linear_uniform_answer shape nodes.now values.now point.now }
{
    n::linear_uniform::interpolate(shape, nodes, values, point)
}

// The lookup by Nearest: the value stored at the nearest node of each axis.
pub fn ng_interpolate_nearest(shape: Shape, nodes: &[f64], values: &[f64], point: &[f64]) -> Answer
    ensures { result ≡ nearest_answer shape nodes.now values.now point.now }
{
    n::nearest::interpolate(shape, nodes, values, point)
}

// The lookup by Step: the value stored at the step index of each axis, by its direction.
pub fn ng_interpolate_step(
    shape: Shape,
    nodes: &[f64],
    values: &[f64],
    point: &[f64],
    directions: &[u8],
) -> Answer
    ensures { result ≡ step_answer shape nodes.now values.now point.now
        directions.now }
{
    n::step::interpolate(shape, nodes, values, point, directions)
}
