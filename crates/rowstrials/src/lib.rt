// Trials of the call for rule rows: in specs/, and that they pass in proofs/.
#![tactic(auto)]
