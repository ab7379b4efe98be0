// The arrivals index beside the edges: the answer of the calls that keep it. What they answer and leave is in specs/; the calls themselves are
// the crates `edgecall` and `indexcall`.
#![tactic(auto)]
