// What the steps of the fill call come to, as laws over the definitions, in specs/ and proofs/: no code.
#![tactic(auto)]
