// In which order a call asks the rows of the table of numbers. The orders stand in specs/Orders.antt, one plain listing for each call.
#![tactic(auto, using(answer::proofs::Checks::hands, answer::proofs::Checks::stops, answer::proofs::Checks::goes_on))]

// The stages that the orders share: what is stored, what is read.
pub mod stages;
// The orders before a lookup.
pub mod before_lookup;
// The orders before a slice.
pub mod before_slice;
