// The program's records: a kind byte and one reading for each axis. What a table's own checks give is found once and lent to each record.
ghost use Rattle.std.specs.Prelude.{◌≡◌, true, ◌+◌, ◌*◌, leb, length, IfOk};
ghost use Rattle.answer.specs.Rows.{said};
ghost use Rattle.answer.specs.Faults.{good, ◌or◌};
ghost use Rattle.answer.specs.Answer.{◌then◌};
ghost use Rattle.layout.specs.Shape.{counts_of};
ghost use Rattle.checks.specs.Numbers.{length_fault, readings_fault, ranges_fault};
ghost use Rattle.checks.specs.Shapes.{frame_fault};
ghost use Rattle.layout.specs.Layout.{tabulate};
ghost use Rattle.little_endian.specs.Words.{float_at};
ghost use Rattle.ninterp.specs.Scaffolding.{LookupJudged, Known, table_fault, kind_fault, kind_found};
ghost use Rattle.ninterp.specs.Kinds.{byte_of};
ghost use Rattle.ninterp.specs.Records.{record_size, record_answer};

pub mod block;
pub mod count;
pub mod kind;

use crate::interpolator::n::{corners, pick};
use crate::records::kind::Kind;
use answer::{Answer, Refusal};
use axis::picks::Pick;
use checks::{lent, shapes, table};
use layout::Shape;
use orders::stages;

// ---- what is judged

// 1 to 7.
pub(crate) fn whole_table_fault(shape: Shape, nodes: &[f64], values: &[f64]) -> Result<(), Refusal>
    ensures { said result ≡ table_fault shape nodes.now values.now }
{
    shapes::frame_fault(shape, nodes.len(), values.len())?;
    stages::stored_fault(shape, nodes, values)
}

// The kind of a record, of a table of which it is known what 1 to 7 and 8 give: those as they were found, with 9 of an unknown kind in
// between, and 8 of LinearUniform alone.
fn known_kind(
    byte: u8,
    table: Result<(), Refusal>,
    uniform: Result<(), Refusal>,
) -> Result<Kind, Refusal>
    ensures fault { said result ≡ kind_fault byte (said table) (said uniform) }
    ensures known { IfOk result (λ kind. byte_of kind ≡ byte) }
{
    table?;
    let kind = Kind::try_from(byte)?;
    if kind == Kind::LinearUniform {
        uniform?;
    }
    Ok(kind)
}

// ---- what is found

// What a kind comes to where nothing was refused before 12.
fn found(kind: Kind, shape: Shape, nodes: &[f64], values: &[f64], point: &[f64]) -> Answer
    requires { LookupJudged shape nodes.now values.now point.now }
    ensures { result ≡ kind_found (byte_of kind) shape nodes.now values.now point.now }
{
    match kind {
        Kind::Linear | Kind::LinearUniform => {
            let uniform = kind == Kind::LinearUniform;
            corners::interpolated(uniform, shape, nodes, values, point)
        }
        Kind::Nearest => pick::stored(shape, nodes, values, |_| Pick::Nearest, point),
        Kind::StepLower => pick::stored(shape, nodes, values, |_| Pick::Lower, point),
        Kind::StepUpper => pick::stored(shape, nodes, values, |_| Pick::Upper, point),
    }
}

// 10; 11; and what is found.
fn point_answer(kind: Kind, shape: Shape, nodes: &[f64], values: &[f64], point: &[f64]) -> Answer
    requires values_value { good (table_fault shape nodes.now values.now) ≡ true }
    requires point_len { length point.now ≡ shape.axes }
    ensures { result ≡ ((readings_fault point.now
        or ranges_fault (counts_of shape) nodes.now point.now)
        then kind_found (byte_of kind) shape nodes.now values.now point.now) }
{
    match stages::inside_fault(shape, nodes, point) {
        Ok(()) => found(kind, shape, nodes, values, point),
        Err(refusal) => Answer::from(refusal),
    }
}

// ---- a record

// Whether so many bytes hold a whole record.
pub(crate) fn is_whole(shape: Shape, len: usize) -> bool
    ensures { result ≡ leb (record_size shape) len }
{
    len > 0 && shape.axes <= (len - 1) / 8
}

// The readings of a record, and what follows them up to four. All four are read without a loop: an array that a loop fills is
// copied when it is returned, and the copy waits for what was just stored.
fn readings_of(rec: &[u8]) -> [f64; 4]
    ensures { result ≡ tabulate 4 (λ a. float_at rec.now (1 + 8 * a)) }
{
    let first = little_endian::float(rec, 1);
    let second = little_endian::float(rec, 9);
    let third = little_endian::float(rec, 17);
    let fourth = little_endian::float(rec, 25);
    [first, second, third, fourth]
}

// A record of the right length, of a table of which it is known what 1 to 7 and 8 give.
pub(crate) fn whole_answer(
    shape: Shape,
    nodes: &[f64],
    values: &[f64],
    table: Result<(), Refusal>,
    uniform: Result<(), Refusal>,
    rec: &[u8],
) -> Answer
    requires known { Known shape nodes.now values.now table uniform }
    requires rec_len { length rec.now ≡ record_size shape }
    ensures { result ≡ record_answer shape nodes.now values.now rec.now }
{
    match known_kind(rec[0], table, uniform) {
        Ok(kind) => {
            let readings = readings_of(rec);
            point_answer(kind, shape, nodes, values, &readings[..shape.axes])
        }
        Err(refusal) => Answer::from(refusal),
    }
}

// 1, 2, 3: of the shape, the nodes, the values and the record.
fn length_row(shape: Shape, nodes: &[f64], values: &[f64], rec: &[u8]) -> Result<(), Refusal>
    ensures { said result ≡ (frame_fault shape (length nodes.now) (length values.now)
        or length_fault 2 (record_size shape) (length rec.now)) }
{
    shapes::frame_fault(shape, nodes.len(), values.len())?;
    lent::length_fault(2, 1 + 8 * shape.axes, rec.len())
}

// What a record is answered, in a table that is judged for it alone.
pub fn record_answer(shape: Shape, nodes: &[f64], values: &[f64], rec: &[u8]) -> Answer
    ensures { result ≡ record_answer shape nodes.now values.now rec.now }
{
    match length_row(shape, nodes, values, rec) {
        Ok(()) => {
            let table = whole_table_fault(shape, nodes, values);
            let uniform = table::axes_uniform_fault(shape, nodes);
            whole_answer(shape, nodes, values, table, uniform, rec)
        }
        Err(refusal) => Answer::from(refusal),
    }
}
