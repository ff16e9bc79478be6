// Face to face: no face of a leaf is in three, and each is in two unless it lies in a base face of one base piece. It has no code: everything is in specs/.
#![tactic(auto)]
