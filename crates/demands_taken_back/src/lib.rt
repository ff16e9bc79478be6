// Taking cuts back, in demand 2's words: what is handed back, and the proofs behind it that need no table. It has no code: everything is in specs/.
#![tactic(auto)]
