// Theorems about the definitions of `arbiter`; no code.
#![tactic(auto)]
