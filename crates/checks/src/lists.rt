// The checks of a list by itself, for every input.
#![tactic(auto, using(answer::proofs::Loops::begin), unfolding(crate::specs::Numbers::directions_fault, crate::specs::Numbers::readings_fault))]

ghost use Rattle.std.specs.Prelude.{◌≡◌};
ghost use Rattle.answer.specs.Rows.{said};
ghost use Rattle.checks.specs.Numbers.{directions_fault, readings_fault};

use crate::{lent, numbers};
use answer::Refusal;

// 9 of all axes.
pub fn directions_fault(directions: &[u8]) -> Result<(), Refusal>
    ensures { said result ≡ directions_fault directions.now }
{
    for (a, direction) in directions.iter().enumerate() {
        lent::direction_fault(a, *direction)?;
    }
    Ok(())
}

// 10 of all axes.
pub fn readings_fault(readings: &[f64]) -> Result<(), Refusal>
    ensures { said result ≡ readings_fault readings.now }
{
    for (a, reading) in readings.iter().enumerate() {
        numbers::reading_fault(a, *reading)?;
    }
    Ok(())
}
