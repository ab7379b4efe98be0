// The search of the work buffer for an event at which two monitors alarm differently.
#![tactic(auto)]

pub mod search; // search.rt: the search, round by round
