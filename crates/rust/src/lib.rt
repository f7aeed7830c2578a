// The Rust's own text, as definitions, in specs/: strategy/utils.rs (Utils) and the four N-dimensional strategies of n/strategies.rs
// (Strategies). proofs/ has the two linears once more, over the locations of all axes (Located), and shows them to be the same.
// Here is the enum that the text and our code share.
#![tactic(auto)]

// Where a reading lies on an axis: on a node, or at a fraction of a cell.
#[derive(Clone, Copy)]
pub enum AxisLocation {
    Exact(usize),
    Between { lower: usize, frac: f64 },
}
