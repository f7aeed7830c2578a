// The table of the list, and the lookups in it.
ghost use Rattle.std.specs.Prelude.{◌≡◌, ◌<◌};

use crate::records::{Header, Op};
use crate::{line, records};
use answer::Answer;
use layout::Shape;
use ninterp::interpolator::n::{linear, linear_uniform, nearest, step};
use test_runs::list::Stop;

pub(crate) const MOST_NODES: usize = 512;

pub(crate) const MOST_VALUES: usize = 4160;

const MOST_READINGS: usize = 8;

// A table's shape, and how many nodes and values are lent with it.
#[derive(Clone, Copy)]
pub struct Table {
    pub shape: Shape,
    pub nodes: usize,
    pub values: usize,
}

// No table: before the first one of the list, and where one does not fit.
pub(crate) fn none() -> Table
    ensures { (result.nodes ≡ 0) × (result.values ≡ 0) }
{
    Table {
        shape: layout::no_shape(),
        nodes: 0,
        values: 0,
    }
}

// The table that a header names; nothing needs fit.
pub(crate) fn of_header(call: Header) -> Table
    ensures { (result.nodes < 4294967296) × (result.values < 4294967296) }
{
    let shape = Shape {
        axes: call.a as usize,
        counts: records::quarters_of(call.second),
    };
    Table {
        shape,
        nodes: records::lower_half(call.third),
        values: records::upper_half(call.third),
    }
}

// By the rule that a header names.
fn look_up(
    call: Header,
    shape: Shape,
    nodes: &[f64],
    values: &[f64],
    directions: &[u8],
    point: &[f64],
) -> Answer {
    match call.op {
        Op::Nearest => nearest::interpolate(shape, nodes, values, point),
        Op::Step => step::interpolate(shape, nodes, values, point, directions),
        Op::Linear => linear::interpolate(shape, nodes, values, point),
        _ => linear_uniform::interpolate(shape, nodes, values, point),
    }
}

// Reads the readings that follow a header, and says what the lookup answers.
pub(crate) fn say(
    call: Header,
    shape: Shape,
    nodes: &[f64],
    values: &[f64],
    directions: &[u8],
) -> Result<(), Stop> {
    let mut readings = [0.0f64; MOST_READINGS];
    let count = usize::from(call.a);
    if count > MOST_READINGS {
        return Err(Stop::BadList);
    }
    let point = &mut readings[..count];
    records::read_floats(point)?;
    line::say_value(look_up(call, shape, nodes, values, directions, point))
}
