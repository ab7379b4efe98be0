// The calls open to C and Rust: numbers and slices of bytes or 16-bit numbers in, one 64-bit number out.
#![tactic(auto)]

pub mod event; // event.rt: the event step
pub mod check; // check.rt: the plan check
pub mod plan; // plan.rt: planning
pub mod list; // list.rt: listing
pub mod price; // price.rt: pricing
pub mod rule; // rule.rt: the rule of a job
pub mod rule_rows; // rule_rows.rt: rule rows
pub mod rule_expression; // rule_expression.rt: rules as expressions
pub mod edges; // edges.rt: edges and their arrivals index
