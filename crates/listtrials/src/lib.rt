// Trials of listing, from the bytes of a file to those of its listing: a theorem and no code.
#![tactic(auto)]
