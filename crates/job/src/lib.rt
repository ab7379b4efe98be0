// The job as a value: its walks, its plans, and what is found at its points. There is no code here.
#![tactic(auto)]
