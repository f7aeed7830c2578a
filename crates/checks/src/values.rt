// 7: the check of a table's values, for every list of them.
#![tactic(auto, using(answer::proofs::Loops::begin), unfolding(crate::specs::Numbers::value_fault, crate::specs::Numbers::values_fault))]

ghost use Rattle.std.specs.Prelude.{◌≡◌, true, ℕ, ◌+◌, ◌-◌, ◌<◌, ◌≤◌, length, get_or};
ghost use Rattle.std.specs.Float.{nan};
ghost use Rattle.std.specs.Float.Ieee.Scale.{finite};
ghost use Rattle.answer.specs.Rows.{said};
ghost use Rattle.answer.specs.Faults.{first_fault};
ghost use Rattle.checks.specs.Numbers.{value_fault, values_fault};

use crate::numbers;
use answer::{Refusal, Row};

// Whether eight values are finite, joined without a branch: a number that is not finite stays so, times 0 and in every sum.
// The order of the sums lets the compiler add two at a time.
fn eight_finite(values: &[f64], at: usize) -> bool
    requires { at + 8 ≤ length values.now }
    ensures { result ≡ true → (j : ℕ) → j < 8 → finite (get_or values.now (at + j) nan) ≡ true }
{
    let a = values[at] * 0.0 + values[at + 2] * 0.0;
    let b = values[at + 1] * 0.0 + values[at + 3] * 0.0;
    let c = values[at + 4] * 0.0 + values[at + 6] * 0.0;
    let d = values[at + 5] * 0.0 + values[at + 7] * 0.0;
    binary64::is_finite((a + c) + (b + d))
}

// 7 at one place.
fn value_fault(values: &[f64], i: usize) -> Result<(), Refusal>
    requires { i < length values.now }
    ensures { said result ≡ value_fault values.now i }
{
    numbers::wild_fault(Row::Value, 0, i, values[i])
}

// The first fault from a place on, value by value.
fn values_fault_from(values: &[f64], from: usize) -> Result<(), Refusal>
    requires { from ≤ length values.now }
    ensures { said result ≡ first_fault (value_fault values.now) from (length values.now - from) }
{
    for i in from..values.len() {
        value_fault(values, i)?;
    }
    Ok(())
}

// 7 of the first value that is not finite. Eight by eight; the place is searched for only where eight have a fault, and in the rest.
pub fn values_fault(values: &[f64]) -> Result<(), Refusal>
    ensures { said result ≡ values_fault values.now }
{
    let whole = values.len() / 8;
    for k in 0..whole {
        if !eight_finite(values, 8 * k) {
            return values_fault_from(values, 8 * k);
        }
    }
    values_fault_from(values, 8 * whole)
}
