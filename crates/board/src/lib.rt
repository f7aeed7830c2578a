// The public side: every call that a board or a bench makes, and nothing else. Each is one line over the judged call of a room below,
// under the same equation. The room board_c exports them to C (include/ngamsothul.h).
#![tactic(auto)]

// the seven axis primitives
pub mod primitives;
// an answer that is an enum, and a tolerance that may be lent, as plain numbers
pub mod plain;
// the four lookups
pub mod lookups;
// the four slices
pub mod cuts;
// the table image: the loader and the writer
pub mod images;
// the coverage tally: a record counted where the tally stands
pub mod tallies;
