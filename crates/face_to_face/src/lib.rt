// Request thirteen: an accepted mesh meets face to face. It has no code: everything is in specs/.
#![tactic(auto)]
