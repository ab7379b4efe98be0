// The numbers of a job's rule, as the rule call answers them.

// How many states and symbols a rule has, and the set of its final states.
#[derive(Clone, Copy)]
pub struct RuleNumbers {
    pub states: u64,
    pub symbols: u64,
    pub finals: u64,
}
