// What it means that a point lies in a closed piece: statements and their proof alone. It has no code: everything is in specs/.
#![tactic(auto)]
