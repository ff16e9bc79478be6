// Taking cuts back: what remains of a set of cuts, and that nothing coarser can be had. It has no code: everything is in specs/.
#![tactic(auto)]
