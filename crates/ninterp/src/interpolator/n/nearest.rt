// Nearest: one stored value, at the nearest node of each axis.
ghost use Rattle.std.specs.Prelude.{◌≡◌};
ghost use Rattle.ninterp.specs.Tables.{nearest_answer};

use crate::interpolator::n::pick;
use answer::Answer;
use axis::picks::Pick;
use layout::Shape;
use orders::before_lookup;

// The lookup by Nearest: the value stored at the nearest node of each axis.
pub fn interpolate(shape: Shape, nodes: &[f64], values: &[f64], point: &[f64]) -> Answer
    ensures { result ≡ nearest_answer shape nodes.now values.now point.now }
{
    match before_lookup::lookup_fault(shape, nodes, values, point) {
        Ok(()) => pick::stored(shape, nodes, values, |_| Pick::Nearest, point),
        Err(refusal) => Answer::from(refusal),
    }
}
