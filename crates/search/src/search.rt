// The search for an event at which the full and the residual monitor alarm differently.
ghost use Rattle.tables.specs.Held.{Usable};
ghost use Rattle.rounds.specs.Rounds.{RoundedAt};
ghost use Rattle.search.specs.Searched.{rounds_end, SearchedAt};

use returns::come_back;
use rounds::{Seen, round};
use starts::start;

// Makes rounds until no row is marked: whether some pair alarms differently, which ends them at once.
fn differs(
    work: &mut [u8],
    table: &[[u8; 16]; 16],
    finals: u16,
    states: usize,
    nodes: usize,
) -> bool
    requires { Usable work.old table.now states nodes }
    ensures { RoundedAt table.now finals states nodes work.old work.new (rounds_end result) }
{
    loop {
        match round(work, table, finals, states, nodes) {
            Seen::Nothing => return false,
            Seen::Rows => {}
            Seen::Difference => return true,
        }
    }
}

// Whether the plan in the buffer is faithful, where the class rows hold the after words of the exits: the search ends as soon as one
// differing alarm is found.
pub fn is_faithful(
    work: &mut [u8],
    table: &[[u8; 16]; 16],
    finals: u16,
    states: usize,
    nodes: usize,
) -> bool
    requires { Usable work.old table.now states nodes }
    ensures { SearchedAt table.now finals states nodes work.old work.new result }
{
    start(work, nodes);
    loop {
        if differs(work, table, finals, states, nodes) {
            return false;
        }
        if !come_back(work, table, finals, states, nodes) {
            return true;
        }
    }
}
