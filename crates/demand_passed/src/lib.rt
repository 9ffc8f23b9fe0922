// The theorems of demand 3, over the definitions of routes and check; no code.
#![tactic(auto)]
