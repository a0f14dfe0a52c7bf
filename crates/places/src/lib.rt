// Where the store's parts lie, and what a part written anew leaves: definitions in specs/, laws in proofs/.
#![tactic(auto)]
