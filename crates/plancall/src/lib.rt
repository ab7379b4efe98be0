// Planning as a call: the plan in the lent plan buffer, and the counts of event nodes, watched points and passes.
#![tactic(auto)]

ghost use Rattle.std.specs.Prelude.{◌≡◌, length};
ghost use Rattle.refusal.specs.Refusal.{said};
ghost use Rattle.admission.specs.Admission.{work_after};
ghost use Rattle.planoutcome.specs.PlanCall.{plan_answer, outcome_of, plan_after};

use clearing::clear;
use door::admit;
use passes::passes::Counts;
use planheld::plan_held;
use refusal::Refusal;

// The smallest plan buffer.
const ROOM: usize = 512;

// Plans a job. A refusal leaves the plan buffer; the work buffer is cleared unless the answer is refusal 1 or 2.
pub fn plan_job(file: &[u8], work: &mut [u8], plan: &mut [u8]) -> Result<Counts, Refusal>
    ensures { (said result ≡ outcome_of (plan_answer file.now (length work.old) (length plan.old)))
        × (work.new ≡ work_after (plan_answer file.now (length work.old) (length plan.old)) work.old)
        × (plan.new ≡ plan_after (plan_answer file.now (length work.old) (length plan.old)) plan.old) }
{
    let head = admit(file, work, plan.len() < ROOM)?;
    let counts = plan_held(
        work,
        plan,
        head.finals as u16,
        head.states as usize,
        head.nodes as usize,
    );
    clear(work);
    Ok(counts)
}
