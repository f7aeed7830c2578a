// The table image: a header of counts and offsets, then nodes and values as f64 bits, anywhere after it, no byte in two areas.
#![tactic(auto, using(answer::proofs::Checks::hands, answer::proofs::Checks::stops, answer::proofs::Checks::goes_on, answer::proofs::Checks::passes_on, answer::proofs::Checks::both_pass, crate::proofs::Listed::areas_asked, crate::proofs::Listed::pairs_asked, crate::proofs::Loads::nodes_fit, crate::proofs::Loads::values_fit), unfolding(crate::specs::Load::load_fault, crate::specs::Load::rooms_fault))]

ghost use Rattle.std.specs.Prelude.{◌≡◌, IfOk};
ghost use Rattle.answer.specs.Answer.{refused};
ghost use Rattle.answer.specs.Rows.{fault_of, said};
ghost use Rattle.layout.specs.Shape.{no_shape};
ghost use Rattle.image.specs.Load.{load_fault, Loaded};
ghost use Rattle.image.specs.Scaffolding.{Held};

// where the areas lie
pub(crate) mod areas;
// what lies in the areas: the room for it; read, and judged
pub(crate) mod contents;
// the numbers that the header says
pub(crate) mod fields;
// the checks of the header
pub(crate) mod headers;
// the rows that judge a number of the header, and those that go over the axes
pub(crate) mod rows;

use answer::{Answer, Refusal};
use checks::shapes::Holding;
use layout::Shape;
use std::convert::From;

// How many bytes a header has.
pub const HEADER: usize = 40;

// How many bytes an image has at most.
pub const MOST_BYTES: usize = 36_864;

// What loading answers, with the shape of what it wrote.
#[repr(C)]
#[derive(Clone, Copy)]
pub struct LoadAnswer {
    pub answer: Answer,
    pub shape: Shape,
}

// Every check, before anything is written, and what the image holds.
fn load_fault(img: &[u8], nodes: usize, values: usize) -> Result<Holding, Refusal>
    ensures fault { said result ≡ load_fault img.now nodes values }
    ensures held { IfOk result (Held img.now) }
{
    let held = headers::head_fault(img)?;
    let all = areas::areas_of(img, held);
    let areas = &all[..=fields::axes_of(img)];
    areas::areas_fault(img.len(), areas)?;
    areas::pairs_fault(areas)?;
    contents::rooms_fault(held, nodes, values)?;
    contents::contents_fault(img, held)?;
    Ok(held)
}

// The answer of a load that is refused.
impl From<Refusal> for LoadAnswer {
    ghost from_gives = { λ r a. a ≡ record { answer = refused (fault_of r); shape = no_shape } };

    fn from(refusal: Refusal) -> LoadAnswer {
        LoadAnswer {
            answer: Answer::from(refusal),
            shape: layout::no_shape(),
        }
    }
}

// Reads a table out of an image into two outputs, which may be longer.
pub fn load(img: &[u8], nodes: &mut [f64], values: &mut [f64]) -> LoadAnswer
    ensures { Loaded img.now nodes.old values.old
        nodes.new values.new result }
{
    let held = match load_fault(img, nodes.len(), values.len()) {
        Ok(held) => held,
        Err(refusal) => return LoadAnswer::from(refusal),
    };
    contents::read(img, &mut nodes[..held.nodes], &mut values[..held.values]);
    LoadAnswer {
        answer: answer::pass(),
        shape: fields::shape_of(img),
    }
}
