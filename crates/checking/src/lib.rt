// The plan check: its answer. What it answers and leaves is in specs/; the call itself is the crate `checkcall`.
#![tactic(auto)]

pub mod check; // check.rt: the answer of the plan check
