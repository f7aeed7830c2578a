// The header: counts and offsets of a shape, each in its width.
ghost use Rattle.std.specs.Prelude.{◌≡◌, true, cond, ltb, length};
ghost use Rattle.std.proofs.lemmas.List.Edits.{sets};
ghost use Rattle.answer.specs.Faults.{good};
ghost use Rattle.checks.specs.Shapes.{shape_fault};
ghost use Rattle.writer.specs.Made.{field_bytes, header_fields};
ghost use Rattle.writer.specs.Scaffolding.{Fitting, Count, HeaderRoom};

use crate::put;
use layout::Shape;

// Where the first axis stands.
const FIRST: u64 = image::HEADER as u64;

// Numbers, each after its width, one after the other.
fn put_fields(out: &mut [u8], fields: &[(usize, u64)])
    requires { Fitting fields.now (length out.old) }
    ensures { out.new ≡ sets out.old 0 (field_bytes fields.now) }
{
    let mut at: usize = 0;
    for (width, field) in fields {
        put::put_word(out, at, *width, *field);
        at += *width;
    }
}

// An axis's count, 0 where there is no such axis.
#[tactic(auto, using(checks::proofs::shapes::Frames::shape_four))]
fn count_in(shape: Shape, axis: usize) -> u64
    requires { good (shape_fault shape) ≡ true }
    ensures { Count shape axis result }
{
    shape.counts[..shape.axes].get(axis).copied().unwrap_or(0) as u64
}

// An axis's offset, 0 where there is no such axis.
fn offset_in(shape: Shape, axis: usize, at: u64) -> u64
    ensures { result ≡ cond (ltb axis shape.axes) at 0 }
{
    if axis < shape.axes { at } else { 0 }
}

// The fourteen fields, each after its width.
fn header_fields(shape: Shape) -> [(usize, u64); 14]
    requires { good (shape_fault shape) ≡ true }
    ensures { result ≡ header_fields shape }
{
    let count0 = count_in(shape, 0);
    let count1 = count_in(shape, 1);
    let count2 = count_in(shape, 2);
    let count3 = count_in(shape, 3);
    let at1 = FIRST + 8 * count0;
    let at2 = at1 + 8 * count1;
    let at3 = at2 + 8 * count2;
    let end = at3 + 8 * count3;
    let held = crate::held(shape);
    let offset0 = offset_in(shape, 0, FIRST);
    let offset1 = offset_in(shape, 1, at1);
    let offset2 = offset_in(shape, 2, at2);
    let offset3 = offset_in(shape, 3, at3);
    let length = end + 8 * held.values as u64;
    let axes = shape.axes as u64;
    [
        (1, 1),
        (1, axes),
        (2, 0),
        (4, length),
        (2, count0),
        (2, count1),
        (2, count2),
        (2, count3),
        (4, offset0),
        (4, offset1),
        (4, offset2),
        (4, offset3),
        (4, end),
        (4, 0),
    ]
}

// Puts the header into the front of an output.
pub(crate) fn put_header(shape: Shape, out: &mut [u8])
    requires { HeaderRoom shape (length out.old) }
    ensures { out.new ≡ sets out.old 0 (field_bytes (header_fields shape)) }
{
    let fields = header_fields(shape);
    put_fields(out, &fields);
}
