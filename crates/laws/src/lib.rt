// Laws of document 01's definitions, by subject: they stand in proofs/, for the theorems of `upkeep` and for the code alike.
#![tactic(auto)]
