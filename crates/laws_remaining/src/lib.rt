// Numbers of which some remain and close up in their order. It has no code: everything is in specs/.
#![tactic(auto)]
