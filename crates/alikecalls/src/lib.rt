// Files alike get the same answer of every call: definitions and theorems, no code.
#![tactic(auto)]
