// Definitions and laws that every layer cites. There is no code here.
#![tactic(auto)]
