// What is found at the nodes of a job: definitions and laws for the crates `afterwords`, `nextrows`, `classgrowth`, `classreads`, `points` and those above them. No code.
#![tactic(auto)]
