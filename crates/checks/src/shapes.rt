// 1 and 2, which judge a table's shape, with how many nodes and values it has; 3 of the nodes and the values lent with it.
#![tactic(auto, using(answer::proofs::Loops::begin, answer::proofs::Checks::hands, answer::proofs::Checks::stops, answer::proofs::Checks::goes_on, answer::proofs::Checks::passes_on, answer::proofs::Checks::both_pass), unfolding(crate::specs::Shapes::shape_fault, crate::specs::Shapes::frame_fault, crate::specs::Numbers::product_fault))]

ghost use Rattle.std.specs.Prelude.{◌≡◌, ◌≤◌, IfOk};
ghost use Rattle.answer.specs.Rows.{said};
ghost use Rattle.checks.specs.Numbers.{counts_fault};
ghost use Rattle.checks.specs.Shapes.{shape_fault, frame_fault};
ghost use Rattle.checks.specs.Scaffolding.{Few, sums_of};

use crate::{counts, lent};
use answer::{Refusal, Row};
use layout::Shape;

// 2 of the first bad count.
fn counts_fault(shape: Shape) -> Result<(), Refusal>
    requires { shape.axes ≤ 4 }
    ensures { said result ≡ counts_fault shape }
{
    let counts = &shape.counts[..shape.axes];
    for (a, count) in counts.iter().enumerate() {
        counts::count_fault(a, *count)?;
    }
    Ok(())
}

// How many nodes and values a shape has.
#[derive(Clone, Copy)]
pub struct Holding {
    pub nodes: usize,
    pub values: usize,
}

// The same of a shape whose counts are few.
fn sums_of(shape: Shape) -> Holding
    requires { Few shape }
    ensures { result ≡ sums_of shape }
{
    let counts = &shape.counts[..shape.axes];
    let mut nodes: usize = 0;
    let mut values: usize = 1;
    for count in counts {
        nodes += *count;
        values *= *count;
    }
    Holding { nodes, values }
}

// 1, 2 of a shape, and what it holds.
pub fn sizes(shape: Shape) -> Result<Holding, Refusal>
    ensures fault { said result ≡ shape_fault shape }
    ensures held { IfOk result (λ held. held ≡ sums_of shape) }
{
    counts::axes_count_fault(shape.axes)?;
    counts_fault(shape)?;
    let sums = sums_of(shape);
    Row::Count.refuse_if(sums.values > 4096, 0, 0)?;
    Ok(sums)
}

// 1, 2 of a shape.
pub fn shape_fault(shape: Shape) -> Result<(), Refusal>
    ensures { said result ≡ shape_fault shape }
{
    sizes(shape)?;
    Ok(())
}

// 1, 2, 3 of a shape and the lengths of its nodes and values.
pub fn frame_fault(shape: Shape, nodes: usize, values: usize) -> Result<(), Refusal>
    ensures { said result ≡ frame_fault shape nodes values }
{
    let held = sizes(shape)?;
    lent::length_fault(0, held.nodes, nodes)?;
    lent::length_fault(1, held.values, values)
}
