// Trials of the call for expressions: in specs/, and that they pass in proofs/.
#![tactic(auto)]
