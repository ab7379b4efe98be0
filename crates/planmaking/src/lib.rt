// All points watched, then passes in number order until one changes nothing.
#![tactic(auto)]

ghost use Rattle.std.specs.Prelude.{◌≤◌};
ghost use Rattle.tables.specs.Held.{Usable};
ghost use Rattle.passes.specs.Passes.{PlanMade};

use enabling::enable_all;
use passes::passes::Counts;
use passmaking::passes;

// Makes the plan of the job that the buffer holds, with its after words in the class rows.
pub fn make_plan(
    work: &mut [u8],
    table: &[[u8; 16]; 16],
    finals: u16,
    states: usize,
    nodes: usize,
) -> Counts
    requires { (1 ≤ nodes) × Usable work.old table.now states nodes }
    ensures { PlanMade table.now finals states nodes work.old work.new result }
{
    let shadows = enable_all(work, nodes);
    passes(work, table, finals, states, nodes, shadows)
}
