// What it means that check accepts: statements and their proof alone. It has no code: everything is in specs/.
#![tactic(auto)]
