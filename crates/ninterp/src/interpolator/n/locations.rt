// Where a reading lies on each axis, for the two linears: by Linear's rule or by LinearUniform's.
ghost use Rattle.axis.specs.Scaffolding.{location_by};
ghost use Rattle.ninterp.specs.Scaffolding.{ReadableTable, Located};

use axis::locate;
use layout::Shape;
use rust::AxisLocation;

// Puts the location on each axis, in axis order, where they are wanted: a copy of them would wait for what was stored last.
pub(crate) fn all(
    uniform: bool,
    shape: Shape,
    nodes: &[f64],
    point: &[f64],
    found: &mut [AxisLocation; 4],
)
    requires { ReadableTable shape nodes.now point.now }
    ensures { Located (location_by uniform) shape nodes.now point.now found.new }
{
    let mut at: usize = 0;
    for a in 0..shape.axes {
        let end = at + shape.counts[a];
        found[a] = locate::location_by(uniform, &nodes[at..end], point[a]);
        at = end;
    }
}
