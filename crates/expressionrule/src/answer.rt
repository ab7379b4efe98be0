// What the call that makes a rule from an expression answers.

// How many states are met, and the set of those that are final.
#[derive(Clone, Copy)]
pub struct Met {
    pub states: u64,
    pub finals: u64,
}
