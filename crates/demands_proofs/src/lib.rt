// The proofs behind the demands. Specs only.
#![tactic(auto)]
