// Sets of cuts: what the demands speak of. It has no code: everything is in specs/.
#![tactic(auto)]
