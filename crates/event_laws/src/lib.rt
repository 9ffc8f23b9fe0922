// Theorems about the definitions of `event_run`; no code.
#![tactic(auto)]
