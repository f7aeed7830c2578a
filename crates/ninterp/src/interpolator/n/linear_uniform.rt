// LinearUniform: the index by the first node and the first gap, and every axis blended.
ghost use Rattle.std.specs.Prelude.{◌≡◌};
ghost use Rattle.ninterp.specs.Linears.{linear_uniform_answer};

use crate::interpolator::n::corners;
use answer::Answer;
use layout::Shape;
use orders::before_lookup;

// The lookup by LinearUniform, on a table whose axes are uniform: every axis blended, or 12.
pub fn interpolate(shape: Shape, nodes: &[f64], values: &[f64], point: &[f64]) -> Answer
    ensures { result ≡ linear_uniform_answer shape nodes.now values.now point.now }
{
    match before_lookup::linear_uniform_fault(shape, nodes, values, point) {
        Ok(()) => corners::interpolated(true, shape, nodes, values, point),
        Err(refusal) => Answer::from(refusal),
    }
}
