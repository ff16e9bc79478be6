// The integers' laws, the ring solver, absolute values, halves and multiples: definitions and theorems of specs/, with no code.
#![tactic(auto)]
