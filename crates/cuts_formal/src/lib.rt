// How faces are shared three cuts down: theorems only.
#![tactic(auto)]
