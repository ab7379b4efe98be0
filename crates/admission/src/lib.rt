// What every call on a job file begins with: definitions and laws. The function is in the crate `door`.
#![tactic(auto)]
