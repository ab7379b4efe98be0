// The before sets of the job that the work buffer holds, in their part of it.
#![tactic(auto)]

ghost use Rattle.tables.specs.Held.{Usable};
ghost use Rattle.found.specs.FoundHeld.{BeforeFound};

use beforestore::store_before;
use enabling::enable_all;
use search::search::is_faithful;

// Finds the before sets: a search with all points watched leaves the states that arrive.
pub fn find_before(
    work: &mut [u8],
    table: &[[u8; 16]; 16],
    finals: u16,
    states: usize,
    nodes: usize,
)
    requires { Usable work.old table.now states nodes }
    ensures { BeforeFound table.now finals states nodes work.old work.new }
{
    enable_all(work, nodes);
    is_faithful(work, table, finals, states, nodes);
    store_before(work, states, nodes);
}
