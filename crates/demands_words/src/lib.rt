// The words of the demands. Specs only.
#![tactic(auto)]
