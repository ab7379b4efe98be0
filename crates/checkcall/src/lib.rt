// The plan check: a job file, somebody's plan and a work buffer in; faithful, different or a refusal out.
#![tactic(auto)]

ghost use Rattle.std.specs.Prelude.{◌≡◌, length};
ghost use Rattle.refusal.specs.Refusal.{said};
ghost use Rattle.checking.specs.Checking.{checked, work_left};

use checkheld::judge;
use checking::check::Verdict;
use clearing::clear;
use door::admit;
use refusal::Refusal;

// Checks a plan. The work buffer is cleared unless the answer is refusal 1 or 2.
pub fn check_plan(file: &[u8], plan: &[u8], work: &mut [u8]) -> Result<Verdict, Refusal>
    ensures { (said result ≡ checked file.now plan.now (length work.old))
        × (work.new ≡ work_left (said result) work.old) }
{
    let head = admit(file, work, false)?;
    let verdict = judge(
        plan,
        work,
        head.finals as u16,
        head.states as usize,
        head.nodes as usize,
    );
    clear(work);
    verdict
}
