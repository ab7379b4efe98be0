// Planning as a call: its answer. What it answers and leaves is in specs/; the call itself is the crate `plancall`.
#![tactic(auto)]
