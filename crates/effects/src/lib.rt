// What one change does to a sound store, case by case: definitions in specs/, laws in proofs/, which the code of the change call cites branch by branch.
#![tactic(auto)]
