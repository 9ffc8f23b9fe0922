// Theorems about the definitions of `route`; no code.
#![tactic(auto)]
