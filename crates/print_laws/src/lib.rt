// Theorems about the definitions of `print_file`; no code.
#![tactic(auto)]
