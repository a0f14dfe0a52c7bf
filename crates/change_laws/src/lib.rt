// What a change below its tests rests on, and what its answers and its written parts come to. Laws, in specs/ and proofs/.
#![tactic(auto)]
