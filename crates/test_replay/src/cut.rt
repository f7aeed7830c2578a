// The slices of the table of the list.
ghost use Rattle.std.specs.Prelude.{◌≤◌, length};

use crate::records::{Header, Op};
use crate::{line, records, tables};
use layout::Shape;
use slices::SliceAnswer;
use test_runs::list::Stop;

// The bits of what stands at a place of the output before a slice, 2^52 and the place.
fn mark(place: usize) -> u64 {
    0x4330_0000_0000_0000 | place as u64
}

fn mark_all(sliced: &mut [f64]) {
    for (place, x) in sliced.iter_mut().enumerate() {
        *x = binary64::float_of_bits(mark(place));
    }
}

// How many places of the output there are up to the last that lost its mark.
fn changed(sliced: &[f64]) -> usize
    ensures { result ≤ length sliced.now }
{
    for (place, x) in sliced.iter().enumerate().rev() {
        if binary64::bits_of_float(*x) != mark(place) {
            return place + 1;
        }
    }
    0
}

// By the rule that a header names.
fn make(
    call: Header,
    shape: Shape,
    nodes: &[f64],
    values: &[f64],
    directions: &[u8],
    sliced: &mut [f64],
) -> SliceAnswer {
    let axis = records::upper_half(call.third);
    let at = call.reading;
    match call.op {
        Op::SliceNearest => slices::nearest(shape, nodes, values, axis, at, sliced),
        Op::SliceStep => slices::step(shape, nodes, values, directions, axis, at, sliced),
        Op::SliceLinear => slices::linear(shape, nodes, values, axis, at, sliced),
        _ => slices::linear_uniform(shape, nodes, values, axis, at, sliced),
    }
}

// Makes the slice in an output whose places are marked first; says the answer, the values up to the last changed place, and how many
// places come after it.
fn say_made(
    call: Header,
    shape: Shape,
    nodes: &[f64],
    values: &[f64],
    directions: &[u8],
    sliced: &mut [f64],
) -> Result<(), Stop> {
    mark_all(sliced);
    line::say_slice(make(call, shape, nodes, values, directions, sliced))?;
    let count = changed(sliced);
    for value in &sliced[..count] {
        line::say_bits(*value)?;
    }
    line::say_kept(sliced.len() - count)
}

// Makes the slice that a header asks for, in the room that it gives, and says its lines.
pub(crate) fn say(
    call: Header,
    shape: Shape,
    nodes: &[f64],
    values: &[f64],
    directions: &[u8],
) -> Result<(), Stop> {
    let mut space = [0.0f64; tables::MOST_VALUES];
    let room = records::lower_half(call.third);
    if room > tables::MOST_VALUES {
        return Err(Stop::BadList);
    }
    say_made(call, shape, nodes, values, directions, &mut space[..room])
}
