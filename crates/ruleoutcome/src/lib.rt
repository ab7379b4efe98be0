// The rule of a job as a call: its answer. What it answers and leaves is in specs/; the calls themselves are the crate `rulecall`.
#![tactic(auto)]

pub mod rule; // rule.rt: the answer of the rule call
