// Theorems about the definitions of `file_record`; no code.
#![tactic(auto)]
