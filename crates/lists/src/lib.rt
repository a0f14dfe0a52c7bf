// Words about lists that every other definition is written in: they stand in specs/.
#![tactic(auto)]
