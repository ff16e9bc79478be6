// What build stores is properly marked and accepted by check: statements and their proof alone. It has no code: everything is in specs/.
#![tactic(auto)]
