// What the listing says: the worked example, no line longer than its buffer, and a buffer that holds any listing. It has no code: everything is in
// specs/.
#![tactic(auto)]
