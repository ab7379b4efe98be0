// Rules written as rows: a row, and the answer of the call that makes a rule of them. What it answers and leaves is in specs/; the calls
// themselves are the crate `rowscall`.
#![tactic(auto)]

pub mod rows; // rows.rt: a row, and the answer of the call for rule rows
