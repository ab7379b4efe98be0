// Two monitors on one walk, in any form of the event step: definitions and theorems, no code.
#![tactic(auto)]
