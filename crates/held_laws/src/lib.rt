// The check with what is held in reset left out, and theorems about it; no code.
#![tactic(auto)]
