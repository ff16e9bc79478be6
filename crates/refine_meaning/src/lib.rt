// What refine answers on the worked table: computed rows alone. It has no code: everything is in specs/.
#![tactic(auto)]
