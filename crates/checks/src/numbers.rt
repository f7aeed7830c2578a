// The rows of the table of numbers that judge one float, one function each: a node, a reading, a result.
#![tactic(auto, unfolding(crate::specs::Numbers::finite_fault, crate::specs::Numbers::reading_fault, crate::specs::Numbers::result_fault))]

ghost use Rattle.std.specs.Prelude.{◌≡◌, not};
ghost use Rattle.std.specs.Float.Ieee.Scale.{finite};
ghost use Rattle.answer.specs.Rows.{number_of, said};
ghost use Rattle.answer.specs.Faults.{refusal, when};
ghost use Rattle.checks.specs.Numbers.{finite_fault, reading_fault, result_fault};

use answer::{Refusal, Row};

// A number that is not finite.
pub(crate) fn wild_fault(row: Row, axis: usize, place: usize, x: f64) -> Result<(), Refusal>
    ensures { said result ≡ when (not (finite x)) (refusal (number_of row) axis place) }
{
    row.refuse_if(!binary64::is_finite(x), axis, place)
}

// 4: a node not finite.
pub fn finite_fault(axis: usize, i: usize, node: f64) -> Result<(), Refusal>
    ensures { said result ≡ finite_fault axis i node }
{
    wild_fault(Row::Node, axis, i, node)
}

// 10: a reading NaN or infinite.
pub fn reading_fault(axis: usize, point: f64) -> Result<(), Refusal>
    ensures { said result ≡ reading_fault axis point }
{
    wild_fault(Row::Reading, axis, 0, point)
}

// 12: a computed result not finite.
pub fn result_fault(place: usize, value: f64) -> Result<(), Refusal>
    ensures { said result ≡ result_fault place value }
{
    wild_fault(Row::Computed, 0, place, value)
}
