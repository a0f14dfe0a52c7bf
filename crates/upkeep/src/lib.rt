// The mission's three demands, proved of the definitions: they stand in proofs/.
#![tactic(auto)]
