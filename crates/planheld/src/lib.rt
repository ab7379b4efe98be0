// The plan of the job that the work buffer holds, copied to the plan buffer.
#![tactic(auto)]

ghost use Rattle.std.specs.Prelude.{◌≤◌, length};
ghost use Rattle.buffer.specs.Views.{rule_rows_in};
ghost use Rattle.tables.specs.Held.{Usable};
ghost use Rattle.planheld.specs.Held.{PlannedHeld};

use afterwords::after_words;
use passes::passes::Counts;
use plancopy::copy_plan;
use planmaking::make_plan;
use rulereads::table_in;

// Plans the job that the work buffer holds.
pub fn plan_held(
    work: &mut [u8],
    plan: &mut [u8],
    finals: u16,
    states: usize,
    nodes: usize,
) -> Counts
    requires { (1 ≤ nodes) × ((512 ≤ length plan.old) × Usable work.old (rule_rows_in work.old) states nodes) }
    ensures { PlannedHeld (rule_rows_in work.old) finals states nodes work.old work.new plan.old plan.new result }
{
    let table = table_in(work);
    after_words(work, &table, finals, states, nodes);
    let counts = make_plan(work, &table, finals, states, nodes);
    copy_plan(work, plan, nodes);
    counts
}
