// Names of vertices, pieces over names, and three cuts at a time: definitions and theorems only.
#![tactic(auto)]
