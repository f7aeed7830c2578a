// The cell of a reading, by counting: the index that the Rust's search gives on a good axis. There is no branch for each node, so the
// compiler counts several at a time, and a reading that is anywhere costs the same.
#![tactic(auto, unfolding(crate::specs::Cells::lower_index))]

ghost use Rattle.std.specs.Prelude.{◌≡◌};
ghost use Rattle.axis.specs.Cells.{count_below, lower_index};

// How many nodes lie strictly below the reading.
fn count_below(grid: &[f64], point: f64) -> usize
    ensures { result ≡ count_below grid.now point }
{
    let mut count: usize = 0;
    for node in grid {
        count += usize::from(*node < point);
    }
    count
}

// The lower node of the reading's cell; 0 on fewer than two nodes, which have no cell.
pub fn lower_index(grid: &[f64], point: f64) -> usize
    ensures { result ≡ lower_index grid.now point }
{
    let last = grid.len().saturating_sub(2);
    count_below(grid, point).saturating_sub(1).min(last)
}
