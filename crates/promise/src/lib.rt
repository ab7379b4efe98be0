// The third promise: no code.
#![tactic(auto)]
