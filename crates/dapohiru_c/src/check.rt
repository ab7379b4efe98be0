// The plan check on bytes: a job file, a plan of one byte a node, and a work buffer of 65,536 bytes or more.
ghost use Rattle.std.specs.Prelude.{◌≡◌, length};
ghost use Rattle.checking.specs.Checking.{checked, work_left, verdict_number};

// Checks a plan and returns 2^48 for faithful, 2^48 + 1 for different, or the refusal's number; the work buffer is cleared unless that is 1 or 2.
#[unsafe(no_mangle)]
pub extern "C" fn dapohiru_check(job: &[u8], plan: &[u8], work: &mut [u8]) -> u64
    ensures { (result ≡ verdict_number (checked job.now plan.now (length work.old)))
        × (work.new ≡ work_left (checked job.now plan.now (length work.old)) work.old) }
{
    dapohiru::check::dapohiru_check(job, plan, work)
}
