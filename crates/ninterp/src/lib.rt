// The lookups of ninterp, laid out as the Rust's are, with our checks in front of each public call; and a program's records.
#![tactic(auto)]

pub mod interpolator;
pub mod records;
