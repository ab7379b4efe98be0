// The number that every call returns: what tells an answer that was accepted from a refusal.
#![tactic(auto)]

// From this number on a call's number says that it was accepted; every number below is a refusal.
pub const ACCEPTED: u64 = 281_474_976_710_656;
