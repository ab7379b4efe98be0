// The rule of a monitor: a deterministic finite automaton with at most 16 states and 16 symbols.
// Its table is sixteen rows of sixteen next states, by value; cells past S or A are not looked at.
#![tactic(auto)]

pub mod rule; // rule.rt: next and final states
