// The rows of the table of numbers that judge one axis: 5 and 6 of a node, then 4, 5, 6 node by node, with 2 where the axis stands alone.
#![tactic(auto, using(answer::proofs::Loops::begin, answer::proofs::Checks::hands, answer::proofs::Checks::stops, answer::proofs::Checks::goes_on, answer::proofs::Checks::passes_on, answer::proofs::Checks::both_pass), unfolding(crate::specs::Numbers::rise_fault, crate::specs::Numbers::node_fault, crate::specs::Numbers::nodes_fault, crate::specs::Shapes::axis_fault))]

ghost use Rattle.std.specs.Prelude.{◌≡◌, ◌<◌, length};
ghost use Rattle.answer.specs.Rows.{said};
ghost use Rattle.checks.specs.Numbers.{rise_fault, node_fault, nodes_fault};
ghost use Rattle.checks.specs.Shapes.{axis_fault};

use crate::{counts, numbers};
use answer::{Refusal, Row};

// 5, 6: a node beside the one before it.
fn rise_fault(axis: usize, i: usize, before: f64, node: f64) -> Result<(), Refusal>
    ensures { said result ≡ rise_fault axis i before node }
{
    Row::Rise.refuse_if(!(before < node), axis, i)?;
    numbers::wild_fault(Row::Difference, axis, i, node - before)
}

// 4, 5, 6 at one node.
fn node_fault(axis: usize, nodes: &[f64], i: usize) -> Result<(), Refusal>
    requires { i < length nodes.now }
    ensures { said result ≡ node_fault axis nodes.now i }
{
    numbers::finite_fault(axis, i, nodes[i])?;
    if i > 0 {
        rise_fault(axis, i, nodes[i - 1], nodes[i])
    } else {
        Ok(())
    }
}

// 4, 5, 6 node by node.
pub(crate) fn nodes_fault(axis: usize, nodes: &[f64]) -> Result<(), Refusal>
    ensures { said result ≡ nodes_fault axis nodes.now }
{
    for i in 0..nodes.len() {
        node_fault(axis, nodes, i)?;
    }
    Ok(())
}

// 2, 4, 5, 6 of one axis that stands alone.
pub fn axis_fault(nodes: &[f64]) -> Result<(), Refusal>
    ensures { said result ≡ axis_fault nodes.now }
{
    counts::count_fault(0, nodes.len())?;
    nodes_fault(0, nodes)
}
