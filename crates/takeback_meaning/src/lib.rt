// What taking cuts back means; specs alone.
#![tactic(auto)]
