// Planning: definitions, and laws that the crates from `enabling` to `planmaking` cite.
#![tactic(auto)]

pub mod passes; // passes.rt: what is carried along, and the counts
