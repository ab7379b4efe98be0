// The door of every call on a job file: the tests 1, 2 and 3 to 10.
#![tactic(auto)]

ghost use Rattle.std.specs.Prelude.{◌||◌, ltb, length};
ghost use Rattle.buffer.specs.Buffer.{work_size};
ghost use Rattle.admission.specs.Admission.{admitted};
ghost use Rattle.admission.specs.Admitted.{Admitted};
ghost use Rattle.jobhead.specs.Numbers.{numbers_in};

use buffer::WORK;
use clearing::clear;
use jobhead::head::Head;
use jobreader::{LONGEST, read_job};
use refusal::Refusal;

// Admits a file and the lent buffers: a refusal, or the numbers of the job that the work buffer holds. `short` says that
// another lent buffer is too short.
pub fn admit(file: &[u8], work: &mut [u8], short: bool) -> Result<Head, Refusal>
    ensures { Admitted (admitted file.now (ltb (length work.old) work_size || short)) work.old work.new (numbers_in result) }
{
    if LONGEST < file.len() {
        return Err(Refusal::LongFile);
    }
    if work.len() < WORK || short {
        return Err(Refusal::ShortBuffer);
    }
    match read_job(file, work) {
        Ok(head) => Ok(head),
        Err(refusal) => {
            clear(work);
            Err(refusal)
        }
    }
}
