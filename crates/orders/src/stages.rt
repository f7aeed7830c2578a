// The stages that the orders of checks share: what is stored (4, 5, 6; 7) and what is read (10; 11). Each for every input.
ghost use Rattle.std.specs.Prelude.{◌≡◌};
ghost use Rattle.answer.specs.Faults.{◌or◌};
ghost use Rattle.answer.specs.Rows.{said};
ghost use Rattle.layout.specs.Shape.{counts_of};
ghost use Rattle.checks.specs.Numbers.{axes_fault, ranges_fault, values_fault, readings_fault};

use answer::Refusal;
use checks::{lists, table, values};
use layout::Shape;

// 4, 5, 6; 7.
pub fn stored_fault(shape: Shape, nodes: &[f64], values: &[f64]) -> Result<(), Refusal>
    ensures { said result ≡ (axes_fault (counts_of shape) nodes.now or values_fault values.now) }
{
    table::axes_fault(shape, nodes)?;
    values::values_fault(values)
}

// 10; 11.
pub fn inside_fault(shape: Shape, nodes: &[f64], point: &[f64]) -> Result<(), Refusal>
    ensures { said result ≡ (readings_fault point.now or ranges_fault (counts_of shape) nodes.now point.now) }
{
    lists::readings_fault(point)?;
    table::ranges_fault(shape, nodes, point)
}
