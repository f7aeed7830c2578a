// The table of numbers: what is judged, row by row. specs/Numbers.antt has the rows in the paper's order, specs/Shapes.antt the checks
// that every call begins with, specs/Passed.antt what is known where they were passed. Each public function gives a fault for every input,
// and judges lists that are too short as far as they go; in which order a call asks them stands in the room `orders`.
#![tactic(auto)]

// 1, 2: how many axes, a count.
pub mod counts;
// 3, 9, 15: a lent length, a direction, room.
pub mod lent;
// 4, 10, 12: one float, a node, a reading or a result.
pub mod numbers;
// 4, 5, 6 of one axis, node by node.
pub mod nodes;
// 7: a table's values.
pub mod values;
// 8 of one axis: its gaps.
pub mod spacing;
// 9, 10 of all axes: directions, readings.
pub mod lists;
// 11: a reading in the range of an axis.
pub mod ranges;
// 1, 2, 3 of a table: its shape, and the lengths lent with it.
pub mod shapes;
// 4, 5, 6; 8; 11 of all axes of a table.
pub mod table;
