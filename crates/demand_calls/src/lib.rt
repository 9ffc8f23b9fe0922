// Demands 1 and 3 over the open calls; no code.
#![tactic(auto)]
