// The corners of a reading: where they lie in the flat values, what is stored there, and what it comes to.
ghost use Rattle.std.specs.Prelude.{◌≡◌, ◌≤◌, take};
ghost use Rattle.layout.specs.Shape.{counts_of};
ghost use Rattle.layout.specs.Layout.{table};
ghost use Rattle.blend.specs.Blend.{linear, computed};
ghost use Rattle.axis.specs.Scaffolding.{location_by, upper_of};
ghost use Rattle.ninterp.specs.Scaffolding.{LookupJudged, Cornered, Placeable, Blank, Placed};
ghost use Rattle.ninterp.specs.Scaffolding.{Spreadable, Spread, Gatherable, Gathered};
ghost use Rattle.ninterp.specs.Linears.{interpolated};

use crate::interpolator::n::locations;
use answer::Answer;
use axis::locate;
use blend::fold;
use layout::Shape;
use rust::AxisLocation;

// The node of an exact axis, the upper one of any other.
fn upper_node(location: AxisLocation) -> usize
    requires { upper_of location ≤ 4096 }
    ensures { result ≡ upper_of location }
{
    match location {
        AxisLocation::Exact(node) => node,
        AxisLocation::Between { lower, frac: _ } => lower + 1,
    }
}

// The places with one axis more: the first `count` on its lower node, as many more on its upper one.
fn spread(places: &mut [usize], count: usize, low: usize, high: usize)
    requires { Spreadable places.old count low high }
    ensures { Spread places.old places.new count low high }
{
    for i in 0..count {
        let at = places[i];
        places[i + count] = at + high;
        places[i] = at + low;
    }
}

// How many corners the axes after the first have, and what the lower and the upper node of the first add to their places.
#[derive(Clone, Copy)]
struct Rest {
    count: usize,
    low: usize,
    high: usize,
}

// The flat place of each corner of the axes after the first, by its number: from the last axis on, so that the lower half of an axis
// comes first.
fn rest_places(
    counts: &[usize; 4],
    locations: &[AxisLocation; 4],
    n: usize,
    places: &mut [usize],
) -> Rest
    requires placeable { Placeable counts.now locations.now n }
    requires blank { Blank places.old }
    ensures { Placed counts.now locations.now n places.new result.count result.low result.high }
{
    let mut rest = Rest {
        count: 1,
        low: 0,
        high: 0,
    };
    let mut stride: usize = 1;
    for d in (0..n).rev() {
        let location = locations[d];
        rest.low = locate::lower_node(location) * stride;
        rest.high = upper_node(location) * stride;
        if d > 0 {
            spread(places, rest.count, rest.low, rest.high);
            rest.count = blend::grow(location, rest.count);
            stride = counts[d] * stride;
        }
    }
    rest
}

// The values at the places under one node of the first axis, and as many more under another.
fn gather(values: &[f64], places: &[usize], low: usize, high: usize) -> [f64; 16]
    requires { Gatherable values.now places.now low high }
    ensures { Gathered values.now places.now low high result }
{
    let count = places.len();
    let mut vals = [0.0f64; 16];
    for (i, at) in places.iter().enumerate() {
        vals[i + count] = values[*at + high];
        vals[i] = values[*at + low];
    }
    vals
}

// What the corners come to: the value, or 12. The places are not spread over the first axis: the values are read under its two nodes at
// once, instead of from places that were just put.
fn corner_answer(shape: Shape, values: &[f64], locations: &[AxisLocation; 4]) -> Answer
    requires { Cornered shape values.now locations.now }
    ensures { result ≡ computed (linear (take shape.axes locations.now) (table (counts_of shape) values.now)) }
{
    let mut places = [0usize; 16];
    let rest = rest_places(&shape.counts, locations, shape.axes, &mut places);
    let mut vals = gather(values, &places[..rest.count], rest.low, rest.high);
    fold::fold_in(&mut vals, locations, shape.axes)
}

// The same of a judged reading, by Linear's rule or by LinearUniform's.
pub(crate) fn interpolated(
    uniform: bool,
    shape: Shape,
    nodes: &[f64],
    values: &[f64],
    point: &[f64],
) -> Answer
    requires { LookupJudged shape nodes.now values.now point.now }
    ensures { result ≡ computed (interpolated (location_by uniform) (counts_of shape)
        nodes.now values.now point.now) }
{
    let mut locations = [AxisLocation::Exact(0); 4];
    locations::all(uniform, shape, nodes, point, &mut locations);
    corner_answer(shape, values, &locations)
}
