// Linear: exact axes fixed at their node, every other axis blended in axis order.
ghost use Rattle.std.specs.Prelude.{◌≡◌};
ghost use Rattle.ninterp.specs.Linears.{linear_answer};

use crate::interpolator::n::corners;
use answer::Answer;
use layout::Shape;
use orders::before_lookup;

// The lookup by Linear: the corners of the reading blended, or 12 where that is not finite.
pub fn interpolate(shape: Shape, nodes: &[f64], values: &[f64], point: &[f64]) -> Answer
    ensures { result ≡ linear_answer shape nodes.now values.now point.now }
{
    match before_lookup::lookup_fault(shape, nodes, values, point) {
        Ok(()) => corners::interpolated(false, shape, nodes, values, point),
        Err(refusal) => Answer::from(refusal),
    }
}
