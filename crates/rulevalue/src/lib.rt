// A rule handed over by value: what a call answers, with the table beside it.
#![tactic(auto)]

// The answer, and the table as bytes in row order, all zero beside a refusal.
#[derive(Drop)]
pub struct WithTable<A> {
    pub answer: A,
    pub table: [u8; 256],
}
