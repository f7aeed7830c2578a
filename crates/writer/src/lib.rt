// The table image: the writer. The axes stand from byte 40 without gaps, then the values.
#![tactic(auto)]

ghost use Rattle.std.specs.Prelude.{◌≡◌, true, length};
ghost use Rattle.std.proofs.lemmas.List.Edits.{sets};
ghost use Rattle.answer.specs.Answer.{refused};
ghost use Rattle.answer.specs.Faults.{good};
ghost use Rattle.answer.specs.Rows.{fault_of, said};
ghost use Rattle.checks.specs.Shapes.{shape_fault};
ghost use Rattle.writer.specs.Made.{image_length, image_of};
ghost use Rattle.writer.specs.Write.{write_fault, Written};
ghost use Rattle.writer.specs.Scaffolding.{Holds, Roomy};

// the header of a shape
pub(crate) mod header;
// numbers and floats put into an output
pub(crate) mod put;

use answer::{Answer, Refusal};
use checks::shapes::Holding;
use checks::{lent, shapes};
use layout::Shape;
use orders::stages;

// What writing answers, with the image's length.
#[repr(C)]
#[derive(Clone, Copy)]
pub struct WriteAnswer {
    pub answer: Answer,
    pub length: usize,
}

// The answer of a write that is refused: no length.
impl From<Refusal> for WriteAnswer {
    ghost from_gives = { λ r a. a ≡ record { answer = refused (fault_of r); length = 0 } };

    fn from(refusal: Refusal) -> WriteAnswer {
        WriteAnswer {
            answer: Answer::from(refusal),
            length: 0,
        }
    }
}

// How many nodes and values a judged shape has.
pub(crate) fn held(shape: Shape) -> Holding
    requires { good (shape_fault shape) ≡ true }
    ensures { Holds shape result }
{
    shapes::sizes(shape).unwrap()
}

// How many bytes the image of a judged shape has.
fn image_length(shape: Shape) -> usize
    requires { good (shape_fault shape) ≡ true }
    ensures { result ≡ image_length shape }
{
    let held = held(shape);
    image::HEADER + 8 * held.nodes + 8 * held.values
}

// Every check, before anything is written.
fn write_fault(shape: Shape, nodes: &[f64], values: &[f64], room: usize) -> Result<(), Refusal>
    ensures { said result ≡ write_fault shape nodes.now values.now room }
{
    shapes::frame_fault(shape, nodes.len(), values.len())?;
    stages::stored_fault(shape, nodes, values)?;
    lent::room_fault(2, image_length(shape), room)
}

// Puts the header, the nodes and the values, one after the other.
fn put_image(shape: Shape, nodes: &[f64], values: &[f64], img: &mut [u8])
    requires { Roomy shape nodes.now values.now (length img.old) }
    ensures { img.new ≡ sets img.old 0 (image_of shape nodes.now values.now) }
{
    header::put_header(shape, img);
    put::put_floats(nodes, img, image::HEADER);
    put::put_floats(values, img, image::HEADER + 8 * nodes.len());
}

// Writes a table as an image into an output, which may be longer.
pub fn write(shape: Shape, nodes: &[f64], values: &[f64], img: &mut [u8]) -> WriteAnswer
    ensures { Written shape nodes.now values.now img.old img.new result }
{
    if let Err(refusal) = write_fault(shape, nodes, values, img.len()) {
        return WriteAnswer::from(refusal);
    }
    put_image(shape, nodes, values, img);
    WriteAnswer {
        answer: answer::pass(),
        length: image_length(shape),
    }
}
