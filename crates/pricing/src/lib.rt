// The journal price of a plan: its answer. What it answers is in specs/; the call itself is the crate `pricecall`.
#![tactic(auto)]
