// Rules made from expressions: the answer of the call. What it answers and leaves is in specs/; the calls themselves are the crate
// `expressioncall`.
#![tactic(auto)]

pub mod answer; // answer.rt: what the call answers, and the rule by value
