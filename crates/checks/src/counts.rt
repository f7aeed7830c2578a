// The rows of the table of numbers that judge whole numbers, one function each: how many axes, a count.
#![tactic(auto, unfolding(crate::specs::Numbers::axes_count_fault, crate::specs::Numbers::count_fault))]

ghost use Rattle.std.specs.Prelude.{◌≡◌};
ghost use Rattle.answer.specs.Rows.{said};
ghost use Rattle.checks.specs.Numbers.{axes_count_fault, count_fault};

use answer::{Refusal, Row};

// 1: axes not 1 to 4.
pub fn axes_count_fault(axes: usize) -> Result<(), Refusal>
    ensures { said result ≡ axes_count_fault axes }
{
    Row::Axes.refuse_if(!(1..=4).contains(&axes), 0, 0)
}

// 2: a count outside 2 to 64.
pub fn count_fault(axis: usize, count: usize) -> Result<(), Refusal>
    ensures { said result ≡ count_fault axis count }
{
    Row::Count.refuse_if(!(2..=64).contains(&count), axis, 0)
}
