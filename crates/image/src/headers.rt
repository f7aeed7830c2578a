// The checks of the header, in the paper's order. For every input.
#![tactic(auto, using(answer::proofs::Checks::hands, answer::proofs::Checks::stops, answer::proofs::Checks::goes_on, answer::proofs::Checks::passes_on, answer::proofs::Checks::both_pass, crate::proofs::Heads::head_product, crate::proofs::Heads::head_held), unfolding(crate::specs::Head::start_fault, crate::specs::Head::head_fault))]

ghost use Rattle.std.specs.Prelude.{◌≡◌, IfOk};
ghost use Rattle.answer.specs.Rows.{said};
ghost use Rattle.image.specs.Head.{start_fault, head_fault};
ghost use Rattle.image.specs.Scaffolding.{Held};

use crate::{fields, rows};
use answer::Refusal;
use checks::shapes::Holding;
use checks::{counts, shapes};

// Under 40 bytes; byte 0; byte 1; bytes 2-3; length.
fn start_fault(img: &[u8]) -> Result<(), Refusal>
    ensures { said result ≡ start_fault img.now }
{
    rows::short_fault(img.len())?;
    rows::field_fault(0, 1, fields::field(img, 0, 1))?;
    counts::axes_count_fault(fields::axes_of(img))?;
    rows::field_fault(2, 0, fields::field(img, 2, 2))?;
    rows::stated_fault(fields::field(img, 4, 4), img.len())
}

// All of the header, areas apart, and what its shape holds.
pub(crate) fn head_fault(img: &[u8]) -> Result<Holding, Refusal>
    ensures fault { said result ≡ head_fault img.now }
    ensures held { IfOk result (Held img.now) }
{
    start_fault(img)?;
    rows::counts_fault(img)?;
    let held = shapes::sizes(fields::shape_of(img))?;
    rows::offsets_fault(img)?;
    rows::field_fault(36, 0, fields::field(img, 36, 4))?;
    Ok(held)
}
