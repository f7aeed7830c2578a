// What Step and Nearest share: one index for each axis, by a pick of its own, and one stored value.
ghost use Rattle.std.specs.Prelude.{ℕ, ◌<◌};
ghost use Rattle.ninterp.specs.Scaffolding.{LookupJudged, ReadableTable, PickedAt, Stored};

use answer::Answer;
use axis::picks;
use axis::picks::Pick;
use layout::Shape;

// The flat place of the index list.
fn pick_place<F: Fn(usize) -> Pick>(shape: Shape, nodes: &[f64], pick: F, point: &[f64]) -> usize
    requires readable_table { ReadableTable shape nodes.now point.now }
    requires callable { (a : ℕ) → a < shape.axes → F.pre pick a }
    ensures { PickedAt (F.post pick) shape nodes.now point.now result }
{
    let mut flat: usize = 0;
    let mut at: usize = 0;
    for a in 0..shape.axes {
        let count = shape.counts[a];
        let end = at + count;
        let i = picks::index_by(pick(a), &nodes[at..end], point[a]);
        flat = flat * count + i;
        at = end;
    }
    flat
}

// The value stored at the place that a judged reading picks.
pub(crate) fn stored<F: Fn(usize) -> Pick>(
    shape: Shape,
    nodes: &[f64],
    values: &[f64],
    pick: F,
    point: &[f64],
) -> Answer
    requires lookup_judged { LookupJudged shape nodes.now values.now point.now }
    requires callable { (a : ℕ) → a < shape.axes → F.pre pick a }
    ensures { Stored (F.post pick) shape nodes.now values.now point.now result }
{
    let at = pick_place(shape, nodes, pick, point);
    Answer::from(values[at])
}
