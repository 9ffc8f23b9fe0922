// Theorems about the definitions of `register_image`; no code.
#![tactic(auto)]
