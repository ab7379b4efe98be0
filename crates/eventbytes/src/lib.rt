// The rule and the record as bytes, and the event step on them: definitions and laws, no code.
#![tactic(auto)]
