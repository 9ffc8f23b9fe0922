// The demands, stated and proved; no code.
#![tactic(auto)]
