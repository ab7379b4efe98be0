// A row of a rule.

// The numbers from the first to the last.
#[derive(Drop)]
pub struct Span {
    pub first: u64,
    pub last: u64,
}

// The next state of these states on these symbols.
#[derive(Drop)]
pub struct Row {
    pub states: Span,
    pub symbols: Span,
    pub next: u64,
}
