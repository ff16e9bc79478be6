// Ours takes cuts back as request nine asks; specs alone.
#![tactic(auto)]
