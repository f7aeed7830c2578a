// What is exported to C (include/ngamsothul.h): each call of the room `board`, under its name and its clauses. `&[f64]` is a pointer and a
// length, a struct stands by value, a lent tally is a pointer.
#![tactic(auto)]

// the seven axis primitives
pub mod primitives;
// the four lookups
pub mod lookups;
// the four slices
pub mod cuts;
// the table image: the loader and the writer
pub mod images;
// the coverage tally: a record counted where the tally stands
pub mod tallies;
