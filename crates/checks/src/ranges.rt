// A reading in the range of an axis, 11; what stands at a place of a list. For every input.
#![tactic(auto, using(answer::proofs::Checks::hands, answer::proofs::Checks::stops, answer::proofs::Checks::goes_on), unfolding(crate::specs::Numbers::range_fault))]

ghost use Rattle.std.specs.Prelude.{◌≡◌, ◌-◌, get_or};
ghost use Rattle.std.specs.Float.{nan};
ghost use Rattle.answer.specs.Rows.{said};
ghost use Rattle.checks.specs.Numbers.{range_fault};

use answer::{Refusal, Row};

// What stands at a place; past the last a NaN.
pub(crate) fn at_or_nan(list: &[f64], i: usize) -> f64
    ensures { result ≡ get_or list.now i nan }
{
    list.get(i).copied().unwrap_or(f64::NAN)
}

// 11: a reading outside its axis.
pub fn range_fault(axis: usize, nodes: &[f64], reading: f64) -> Result<(), Refusal>
    ensures { said result ≡ range_fault axis nodes.now reading }
{
    let last = nodes.len().saturating_sub(1);
    Row::Range.refuse_if(reading < at_or_nan(nodes, 0), axis, 0)?;
    Row::Range.refuse_if(at_or_nan(nodes, last) < reading, axis, 1)
}
