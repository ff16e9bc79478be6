// The three demands as theorems about the services' definitions. It has no code: everything is in specs/.
#![tactic(auto)]
