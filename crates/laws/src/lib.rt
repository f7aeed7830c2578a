// The laws of slices stand in proofs/: a slice answers as the whole table does (SliceLaw, LinearLaw), and two slices commute (Commutes).
#![tactic(auto)]
