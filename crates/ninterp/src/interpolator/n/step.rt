// Step: one stored value, at the step index of each axis.
ghost use Rattle.std.specs.Prelude.{◌≡◌};
ghost use Rattle.ninterp.specs.Tables.{step_answer};

use crate::interpolator::n::pick;
use answer::Answer;
use axis::picks::Pick;
use layout::Shape;
use orders::before_lookup;

// The lookup by Step: the value stored at the step index of each axis, each with its own direction.
pub fn interpolate(
    shape: Shape,
    nodes: &[f64],
    values: &[f64],
    point: &[f64],
    directions: &[u8],
) -> Answer
    ensures { result ≡ step_answer shape nodes.now values.now point.now
        directions.now }
{
    match before_lookup::step_fault(shape, nodes, values, point, directions) {
        Ok(()) => {
            let pick = |a| Pick::toward(directions[a]);
            pick::stored(shape, nodes, values, pick, point)
        }
        Err(refusal) => Answer::from(refusal),
    }
}
