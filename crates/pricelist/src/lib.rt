// The journal price of a plan at an association's own prices: its definitions and laws. There is no code here.
#![tactic(auto)]
