// Theorems alone: what is read from a saved file.
#![tactic(auto)]
