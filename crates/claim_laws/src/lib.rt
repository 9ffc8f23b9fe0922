// Theorems about the definitions of `claim_window` and `claim_agent`; no code.
#![tactic(auto)]
