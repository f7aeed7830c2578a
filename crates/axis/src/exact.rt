// The node of a cell at which a reading lies, for any lower node.
#![tactic(auto, using(crate::proofs::exact::Exacts::exact_past, crate::proofs::exact::Exacts::exact_last), unfolding(crate::specs::Exact::exact_node))]

ghost use Rattle.std.specs.Prelude.{◌≡◌};
ghost use Rattle.axis.specs.Exact.{exact_node};

// The node of a cell that equals the reading; a node past the end equals nothing.
pub fn exact_node(grid: &[f64], lower: usize, point: f64) -> Option<usize>
    ensures { result ≡ exact_node grid.now lower point }
{
    if *grid.get(lower)? == point {
        return Some(lower);
    }
    let upper = lower + 1;
    if *grid.get(upper)? == point {
        Some(upper)
    } else {
        None
    }
}
