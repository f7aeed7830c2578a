// Where a reading lies on one axis. The primitives, the table rules and the slices share this. It judges nothing and takes any nodes and
// any reading at all: each call that a board makes judges first.
#![tactic(auto)]

// The location of a reading, for the two linears.
pub mod locate;
// The cell of a reading.
pub mod cells;
// The node at a reading.
pub mod exact;
// The node that Nearest or Step picks.
pub mod picks;
// The index of a reading on a uniform axis.
pub mod uniform;
