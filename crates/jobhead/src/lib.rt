// The J line, and the numbers that reading a job returns.
#![tactic(auto)]

pub mod head; // head.rt: the J line
