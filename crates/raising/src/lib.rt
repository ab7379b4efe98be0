// The alarm total after one more.
#![tactic(auto)]

ghost use Rattle.std.specs.Prelude.{◌≡◌};
ghost use Rattle.events.specs.Monitor.{raised};

// The alarm total after one alarm more.
pub fn raise(alarms: u64) -> u64
    ensures { result ≡ raised alarms }
{
    alarms.saturating_add(1)
}
