// Planning on bytes: a job file, a work buffer of 65,536 bytes or more, and a plan buffer of 512 bytes or more.
ghost use Rattle.std.specs.Prelude.{◌≡◌, length};
ghost use Rattle.admission.specs.Admission.{work_after};
ghost use Rattle.planoutcome.specs.PlanCall.{plan_answer, outcome_of, plan_after, plan_number};

// Plans a job and returns 2^48 plus event nodes times 2^32, watched points times 2^16, and passes, or the refusal's number. A refusal leaves
// the plan buffer; the work buffer is cleared unless that is 1 or 2.
#[unsafe(no_mangle)]
pub extern "C" fn dapohiru_plan(job: &[u8], work: &mut [u8], plan: &mut [u8]) -> u64
    ensures { (result ≡ plan_number (outcome_of (plan_answer job.now (length work.old) (length plan.old))))
        × (work.new ≡ work_after (plan_answer job.now (length work.old) (length plan.old)) work.old)
        × (plan.new ≡ plan_after (plan_answer job.now (length work.old) (length plan.old)) plan.old) }
{
    dapohiru::plan::dapohiru_plan(job, work, plan)
}
