// Slices of a table: one axis is removed at a reading, and the values of the other axes are written.
#![tactic(auto)]

ghost use Rattle.std.specs.Prelude.{◌≡◌, OnOk, length};
ghost use Rattle.answer.specs.Answer.{refused};
ghost use Rattle.answer.specs.Rows.{fault_of, said};
ghost use Rattle.layout.specs.Shape.{no_shape};
ghost use Rattle.orders.specs.Orders.{nearest_slice_fault, step_slice_fault};
ghost use Rattle.axis.specs.Picks.{nearest_rule, step_rule};
ghost use Rattle.axis.specs.Locations.{axis_location, uniform_location};
ghost use Rattle.slices.specs.Slices.{slice_answer, rule_slice, nearest_slice, nearest_sliced, step_slice, step_sliced};
ghost use Rattle.slices.specs.LinearSlices.{linear_values, linear_slice_fault, linear_slice, linear_sliced, linear_uniform_slice_fault, linear_uniform_slice, linear_uniform_sliced};
ghost use Rattle.slices.specs.Scaffolding.{AxisOf, JudgedOutput};

pub(crate) mod judged;
pub(crate) mod remaining;
pub(crate) mod written;

use answer::{Answer, Refusal};
use axis::picks::Pick;
use layout::Shape;
use orders::before_slice;

// What a slice answers, with the shape of what it wrote.
#[repr(C)]
#[derive(Clone, Copy)]
pub struct SliceAnswer {
    pub answer: Answer,
    pub shape: Shape,
}

// The answer of a slice that is refused: no shape.
impl From<Refusal> for SliceAnswer {
    ghost from_gives = { λ r a. a ≡ record { answer = refused (fault_of r); shape = no_shape } };

    fn from(refusal: Refusal) -> SliceAnswer {
        SliceAnswer {
            answer: Answer::from(refusal),
            shape: layout::no_shape(),
        }
    }
}

// The answer of a slice that was judged to its end: made with the shape that is left, or refused.
fn slice_answer(judged: Result<(), Refusal>, shape: Shape, axis: usize) -> SliceAnswer
    requires { OnOk judged (AxisOf shape axis) }
    ensures { result ≡ slice_answer (said judged) shape axis }
{
    match judged {
        Ok(()) => SliceAnswer {
            answer: answer::pass(),
            shape: remaining::shape_without(shape, axis),
        },
        Err(refusal) => SliceAnswer::from(refusal),
    }
}

// ---- Nearest

// Judges the slice by Nearest to its end, and writes it.
fn nearest_into(
    shape: Shape,
    nodes: &[f64],
    values: &[f64],
    axis: usize,
    point: f64,
    out: &mut [f64],
) -> Result<(), Refusal>
    ensures { JudgedOutput (nearest_slice_fault shape nodes.now values.now axis point (length out.old))
        (rule_slice nearest_rule shape nodes.now values.now axis point)
        out.old (said result) out.new }
{
    before_slice::nearest_front(shape, nodes, values, axis)?;
    judged::pick_judged(shape, nodes, values, Pick::Nearest, axis, point, out)
}

// The slice of a table by Nearest, on any axis.
pub fn nearest(
    shape: Shape,
    nodes: &[f64],
    values: &[f64],
    axis: usize,
    point: f64,
    out: &mut [f64],
) -> SliceAnswer
    ensures value { result ≡ nearest_slice shape nodes.now values.now axis point (length out.old) }
    ensures out_after { out.new ≡ nearest_sliced shape nodes.now values.now axis point
        out.old }
{
    let judged = nearest_into(shape, nodes, values, axis, point, out);
    slice_answer(judged, shape, axis)
}

// ---- Step

// Judges the slice by Step to its end, and writes it.
fn step_into(
    shape: Shape,
    nodes: &[f64],
    values: &[f64],
    directions: &[u8],
    axis: usize,
    point: f64,
    out: &mut [f64],
) -> Result<(), Refusal>
    ensures { JudgedOutput (step_slice_fault shape nodes.now values.now directions.now axis point (length out.old))
        (rule_slice (step_rule directions.now) shape nodes.now values.now axis point)
        out.old (said result) out.new }
{
    before_slice::step_front(shape, nodes, values, directions, axis)?;
    let pick = Pick::toward(directions[axis]);
    judged::pick_judged(shape, nodes, values, pick, axis, point, out)
}

// The slice of a table by Step, on any axis, with the directions of all axes.
pub fn step(
    shape: Shape,
    nodes: &[f64],
    values: &[f64],
    directions: &[u8],
    axis: usize,
    point: f64,
    out: &mut [f64],
) -> SliceAnswer
    ensures value { result ≡ step_slice shape nodes.now values.now directions.now axis point
        (length out.old) }
    ensures out_after { out.new ≡ step_sliced shape nodes.now values.now directions.now axis point
        out.old }
{
    let judged = step_into(shape, nodes, values, directions, axis, point, out);
    slice_answer(judged, shape, axis)
}

// ---- Linear

// Judges the slice by Linear to its end, and writes it.
fn linear_into(
    shape: Shape,
    nodes: &[f64],
    values: &[f64],
    axis: usize,
    point: f64,
    out: &mut [f64],
) -> Result<(), Refusal>
    ensures { JudgedOutput (linear_slice_fault shape nodes.now values.now axis point (length out.old))
        (linear_values axis_location shape nodes.now values.now point)
        out.old (said result) out.new }
{
    before_slice::linear_front(shape, nodes, values, axis)?;
    judged::linear_judged(false, shape, nodes, values, point, out)
}

// The slice of a table by Linear, on its first axis.
pub fn linear(
    shape: Shape,
    nodes: &[f64],
    values: &[f64],
    axis: usize,
    point: f64,
    out: &mut [f64],
) -> SliceAnswer
    ensures value { result ≡ linear_slice shape nodes.now values.now axis point (length out.old) }
    ensures out_after { out.new ≡ linear_sliced shape nodes.now values.now axis point
        out.old }
{
    let judged = linear_into(shape, nodes, values, axis, point, out);
    slice_answer(judged, shape, axis)
}

// ---- LinearUniform

// Judges the slice by LinearUniform to its end, and writes it.
fn linear_uniform_into(
    shape: Shape,
    nodes: &[f64],
    values: &[f64],
    axis: usize,
    point: f64,
    out: &mut [f64],
) -> Result<(), Refusal>
    ensures { JudgedOutput (linear_uniform_slice_fault shape nodes.now values.now axis point (length out.old))
        (linear_values uniform_location shape nodes.now values.now point)
        out.old (said result) out.new }
{
    before_slice::linear_uniform_front(shape, nodes, values, axis)?;
    judged::linear_judged(true, shape, nodes, values, point, out)
}

// The slice of a table by LinearUniform, on its first axis.
pub fn linear_uniform(
    shape: Shape,
    nodes: &[f64],
    values: &[f64],
    axis: usize,
    point: f64,
    out: &mut [f64],
) -> SliceAnswer
    ensures value { result ≡ linear_uniform_slice shape nodes.now values.now axis point
        (length out.old) }
    ensures out_after { out.new ≡ linear_uniform_sliced shape nodes.now values.now axis point out.old }
{
    let judged = linear_uniform_into(shape, nodes, values, axis, point, out);
    slice_answer(judged, shape, axis)
}
