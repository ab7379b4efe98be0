// Planning and the listing of a job, as values, and the trial jobs. There is no code here.
#![tactic(auto)]
