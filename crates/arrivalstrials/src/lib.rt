// Trials of the calls that keep the arrivals index: in specs/, and that they pass in proofs/.
#![tactic(auto)]
