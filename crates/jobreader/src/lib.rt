// Reading a whole job file into the work buffer.
#![tactic(auto)]

ghost use Rattle.buffer.specs.Layout.{Lent};
ghost use Rattle.jobhead.specs.Numbers.{numbers_in};
ghost use Rattle.jobhead.specs.Reading.{FileRead};

use jobhead::head::{Head, head_line};
use refusal::Refusal;
use restlines::read_rest;

// The bytes of the longest file.
pub const LONGEST: usize = 49914;

// Reads a job file: `LongFile`, the first refusal of its lines, or the job's numbers, and the buffer holds the job.
pub fn read_job(file: &[u8], work: &mut [u8]) -> Result<Head, Refusal>
    requires { Lent work.old }
    ensures { FileRead file.now work.old work.new (numbers_in result) }
{
    if LONGEST < file.len() {
        return Err(Refusal::LongFile);
    }
    let head = head_line(file)?;
    read_rest(file, work, head)
}
