// The verdict on a plan, for the job that the work buffer holds.
#![tactic(auto)]

ghost use Rattle.buffer.specs.Views.{rule_rows_in};
ghost use Rattle.refusal.specs.Refusal.{said};
ghost use Rattle.tables.specs.Held.{Usable};
ghost use Rattle.checking.specs.Inner.{Judged};

use afterwords::after_words;
use checking::check::Verdict;
use planmarks::{is_plan, store_plan};
use refusal::Refusal;
use rulereads::table_in;
use search::search::is_faithful;

// The answer for the job that the work buffer holds: 11, 12, or the plan's verdict.
pub fn judge(
    plan: &[u8],
    work: &mut [u8],
    finals: u16,
    states: usize,
    nodes: usize,
) -> Result<Verdict, Refusal>
    requires { Usable work.old (rule_rows_in work.old) states nodes }
    ensures { Judged (rule_rows_in work.old) finals states nodes plan.now work.old work.new (said result) }
{
    if plan.len() != nodes {
        return Err(Refusal::WrongPlanLength);
    }
    if !is_plan(plan, work, nodes) {
        return Err(Refusal::WrongPlanByte);
    }
    let table = table_in(work);
    store_plan(plan, work, nodes);
    after_words(work, &table, finals, states, nodes);
    if is_faithful(work, &table, finals, states, nodes) {
        return Ok(Verdict::Faithful);
    }
    Ok(Verdict::Different)
}
