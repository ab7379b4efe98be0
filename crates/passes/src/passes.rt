// What planning carries along, and the counts that it returns.

// How far planning is: the watched points of the plan as it stands, and one past the last node that went; N before the first pass, 0 when a pass
// has changed nothing. Between passes all nodes from `last` on were tried since the plan last changed.
#[derive(Drop)]
pub struct Progress {
    pub enabled: usize,
    pub last: usize,
}

// The counts of event nodes, watched points and passes.
#[derive(Drop)]
pub struct Counts {
    pub shadows: usize,
    pub enabled: usize,
    pub passes: usize,
}
