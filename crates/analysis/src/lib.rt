// Before sets, plan and classes of the job that the work buffer holds, each in its part.
#![tactic(auto)]

ghost use Rattle.std.specs.Prelude.{◌≤◌};
ghost use Rattle.tables.specs.Held.{Usable};
ghost use Rattle.found.specs.FoundHeld.{Found};

use afterwords::after_words;
use beforesets::find_before;
use classgrowth::grow_classes;
use passes::passes::Counts;
use planmaking::make_plan;

// Finds before sets, plan and classes, and returns the plan's counts.
pub fn find(
    work: &mut [u8],
    table: &[[u8; 16]; 16],
    finals: u16,
    states: usize,
    nodes: usize,
) -> Counts
    requires { (1 ≤ nodes) × Usable work.old table.now states nodes }
    ensures { Found table.now finals states nodes work.old work.new result }
{
    after_words(work, table, finals, states, nodes);
    find_before(work, table, finals, states, nodes);
    let counts = make_plan(work, table, finals, states, nodes);
    grow_classes(work, table, finals, states, nodes);
    counts
}
