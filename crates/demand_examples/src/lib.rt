// The worked examples of document 01 as theorems; no code.
#![tactic(auto)]
