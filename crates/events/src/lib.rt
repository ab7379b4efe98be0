// The running monitor: its record, and what an event call reports and leaves.
#![tactic(auto)]

use refusal::Refusal;

// What an event reports.
#[derive(Clone, Copy, Debug, PartialEq, Eq)]
pub enum Report {
    // The state moved to is not final.
    Quiet,
    // The state moved to is final.
    Alarm,
}

// A running monitor: its state, and how often it alarmed.
#[derive(Clone, Copy)]
pub struct Record {
    pub state: u64,
    pub alarms: u64,
}

// What an event call leaves: the record, and what is reported, or the reason for which it is turned back.
#[derive(Clone, Copy)]
pub struct Taken {
    pub left: Record,
    pub report: Result<Report, Refusal>,
}
