// The mission's three demands of the code that runs, from the calls' contracts alone: they stand in specs/ and proofs/.
#![tactic(auto)]
