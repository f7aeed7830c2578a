// The bench cases of the paper stand in specs/Cases.antt: one list, and one claim over all of it.
#![tactic(auto)]
