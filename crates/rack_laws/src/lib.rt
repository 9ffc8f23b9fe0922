// Theorems about the definitions of `rack`; no code.
#![tactic(auto)]
