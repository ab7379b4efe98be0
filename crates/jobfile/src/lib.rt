// The job file: the job that it spells, and what it is turned back for. There is no code here.
#![tactic(auto)]
